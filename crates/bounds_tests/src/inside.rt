//! Bounds in the midst of another text, read piece by piece from outside: from another first byte than that of the
//! text, up to a bracket `]` of the other text, over the names `A` and `B`.

use crate::postfix::{number, written};
use crate::stepped::stepped_at;
use bound_expr::{Bound, Memory};
use bound_text::{Fault, Piece, Reader};
use std::alloc::Global;

/// The result of reading a bound: the bound and the position of the bracket after it, or why and at which position it
/// is refused.
#[derive(Drop)]
pub(crate) enum Found {
    Parsed(Bound, usize),
    Refused(Fault, usize),
}

// A piece of one byte.
fn mark(byte: u8) -> Piece {
    match byte {
        b'(' => Piece::Open,
        b')' => Piece::Close,
        b'*' => Piece::Times,
        b'^' => Piece::Caret,
        b'+' => Piece::Plus,
        b' ' => Piece::Blank,
        b',' => Piece::Comma,
        b'A'..=b'Z' => Piece::Variable(u32::from(byte.wrapping_sub(b'A'))),
        _ => Piece::Wrong,
    }
}

/// The piece that a text begins with, and the number of its bytes.
pub(crate) fn first_piece(text: &[u8]) -> (Piece, usize) {
    match text {
        [b'm', b'a', b'x', b'(', ..] => (Piece::Maximum, 4),
        [byte, ..] => {
            if byte.is_ascii_digit() {
                let (value, len) = number(text);
                (Piece::Number(value), len)
            } else {
                (mark(*byte), 1)
            }
        }
        [] => (Piece::Wrong, 1),
    }
}

// Reads the bound that begins at a position, up to the first piece that can't be taken.
fn bound_at(alloc: Global, text: &[u8], begins: usize) -> Found {
    let mut reader = Reader::new(alloc);
    let mut at = begins;
    for _piece in 0..text.len() {
        let rest = text.get(at..).unwrap_or(&[]);
        if rest.first() == Some(&b']') {
            return match reader.finish() {
                Ok(bound) => Found::Parsed(bound, at),
                Err(fault) => Found::Refused(fault, at),
            };
        }
        let (piece, len) = first_piece(rest);
        let behind = at.saturating_add(len);
        let caret = text.get(behind) == Some(&b'^');
        if let Err(fault) = reader.take(alloc, 2, caret, piece) {
            return Found::Refused(fault, at);
        }
        at = behind;
    }
    Found::Refused(Fault::Syntax, at)
}

// The position after the bracket `[`.
fn behind_bracket(text: &[u8]) -> usize {
    let mut at = 0usize;
    for byte in text {
        at = at.saturating_add(1);
        if *byte == b'[' {
            return at;
        }
    }
    at
}

// The result for a bound, as text.
fn found_text(alloc: Global, found: &Found) -> Result<String, Memory> {
    match found {
        Found::Parsed(bound, end) => {
            let words = written(alloc, bound)?;
            format!(in alloc; "{words} to {end}")
        }
        Found::Refused(fault, at) => format!(in alloc; "{fault:?} at {at}"),
    }
}

/// The result of taking the bound in a text piece by piece, up to the first fault.
pub(crate) fn taken_text(alloc: Global, text: &str) -> Result<String, Memory> {
    let bytes = text.as_bytes();
    found_text(alloc, &bound_at(alloc, bytes, behind_bracket(bytes)))
}

/// The result if reading goes on after a fault; the text follows the number of levels that it may have.
pub(crate) fn stepped_text(alloc: Global, line: &str) -> Result<String, Memory> {
    let Some((most, text)) = line.split_once(' ') else {
        return String::from_str(alloc, "no text");
    };
    let most = u64::try_from(number(most.as_bytes()).0).unwrap_or(0);
    let bytes = text.as_bytes();
    found_text(
        alloc,
        &stepped_at(alloc, bytes, behind_bracket(bytes), most)?,
    )
}
