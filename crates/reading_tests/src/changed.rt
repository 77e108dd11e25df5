//! A small program with other tokens and bytes in it.

use crate::outcomes::{Outcome, outcome_of};
use crate::writing::number_of;
use model::Memory;
use std::alloc::Global;

// Whether a program is read.
fn is_read(alloc: Global, text: &[u8]) -> Result<bool, Memory> {
    Ok(matches!(outcome_of(alloc, text)?, Outcome::Program(_)))
}

// The tokens, each followed by a blank; the one at a position is replaced by another, or that one comes after all.
fn with_another(
    alloc: Global,
    tokens: &str,
    position: usize,
    other: &str,
) -> Result<String, Memory> {
    let mut text = String::new(alloc);
    let mut number = 0usize;
    for token in tokens.split_whitespace() {
        text.push_str(if number == position { other } else { token })?;
        text.push_str(" ")?;
        number = number.saturating_add(1);
    }
    if number == position {
        text.push_str(other)?;
    }
    Ok(text)
}

/// For a token and the tokens of a program: for each position of the program, and after it, `+` if the program is read
/// with that token there, and else `-`.
pub(crate) fn tokens_changed(alloc: Global, line: &str) -> Result<String, Memory> {
    let Some((other, tokens)) = line.split_once(' ') else {
        return String::from_str(alloc, "no tokens");
    };
    let mut signs = String::new(alloc);
    for position in 0..tokens.split_whitespace().count().saturating_add(1) {
        let text = with_another(alloc, tokens, position, other)?;
        let sign = if is_read(alloc, text.as_bytes())? {
            "+"
        } else {
            "-"
        };
        signs.push_str(sign)?;
    }
    Ok(signs)
}

/// For the number of a byte and a program: at how many places it is read with that byte.
pub(crate) fn bytes_changed(alloc: Global, line: &str) -> Result<String, Memory> {
    let Some((number, program)) = line.split_once(' ') else {
        return String::from_str(alloc, "no text");
    };
    let byte = u8::try_from(number_of(number.as_bytes())).unwrap_or(0);
    let mut places = 0usize;
    for at in 0..program.len() {
        let mut text = program.as_bytes().to_vec(alloc)?;
        if let Some(place) = text.get_mut(at) {
            *place = byte;
        }
        if is_read(alloc, &text)? {
            places = places.saturating_add(1);
        }
    }
    format!(in alloc; "{places}")
}
