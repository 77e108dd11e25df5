//! Facts as a line writes them, divided by semicolons: `size`, a rule and a place; `peak`, a rule and a polynomial; or
//! `sum` and charges. After `|` comes the bound.

use crate::bounds::bound;
use crate::lemmas::charges;
use crate::numbers::{number, poly};
use crate::tables::before_and_after;
use check_potentials::Memory;
use potential_types::SignedFact;
use signed_bounds::Signed;
use std::alloc::Global;

/// Facts.
pub(crate) fn parse_facts(alloc: Global, text: &str) -> Result<Vec<SignedFact>, Memory> {
    let mut found = Vec::new(alloc);
    for part in text.split(';') {
        if let Some((kind, rest)) = part.trim().split_once(' ') {
            let (stated, upper) = before_and_after(rest, '|');
            let fact = fact(alloc, kind, stated.trim(), bound(alloc, upper)?)?;
            found.push(fact)?;
        }
    }
    Ok(found)
}

// A fact, by its kind, what it is on, and its bound.
fn fact(alloc: Global, kind: &str, text: &str, bound: Signed) -> Result<SignedFact, Memory> {
    let (rule, rest) = before_and_after(text, ' ');
    match kind {
        "size" => Ok(SignedFact::Size(number(rule), number(rest), bound)),
        "peak" => Ok(SignedFact::Peak(number(rule), poly(alloc, rest)?, bound)),
        _ => Ok(SignedFact::Sum(charges(alloc, text)?, bound)),
    }
}
