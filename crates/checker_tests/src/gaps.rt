//! Gaps as lines write them: RULE:SET:SHUT:MOVES:FLOOR:KEPT. SHUT is pairs of a symbol and a place divided by `/`;
//! MOVES and KEPT are points divided by `/`, and a point is its parts and then its denominator.

use crate::words::{number, numbers, part, parts_of, signed};
use cert_types::Gap;
use farkas_cert::Scaled;
use model::Memory;
use std::alloc::Global;

/// The gap of a word.
pub(crate) fn gap(alloc: Global, word: &str) -> Result<Gap, Memory> {
    let parts = parts_of(alloc, word, ':')?;
    Ok(Gap {
        rule: number(part(&parts, 0)),
        set: numbers(alloc, part(&parts, 1))?,
        shut: shut_places(alloc, part(&parts, 2))?,
        moves: points(alloc, part(&parts, 3))?,
        floor: point(alloc, part(&parts, 4))?,
        kept: points(alloc, part(&parts, 5))?,
    })
}

// Shut places.
fn shut_places(alloc: Global, text: &str) -> Result<Vec<(u32, u32)>, Memory> {
    let mut found = Vec::new(alloc);
    for pair in text.split('/') {
        if let Some((symbol, place)) = pair.split_once(',') {
            found.push((number(symbol), number(place)))?;
        }
    }
    Ok(found)
}

// Points.
fn points(alloc: Global, text: &str) -> Result<Vec<Scaled>, Memory> {
    let mut found = Vec::new(alloc);
    for list in text.split('/') {
        if !list.is_empty() {
            found.push(point(alloc, list)?)?;
        }
    }
    Ok(found)
}

// A point.
fn point(alloc: Global, list: &str) -> Result<Scaled, Memory> {
    let mut parts = signed(alloc, list)?;
    let den = parts.pop().unwrap_or(0).unsigned_abs();
    Ok(Scaled { parts, den })
}
