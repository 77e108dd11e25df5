//! Programs that are printed: those that are read, and the generated ones.

use crate::outcomes::{Outcome, outcome_of};
use crate::writing::number_of;
use its_reader::{ReadError, read};
use its_writer::{generate, print};
use model::Memory;
use std::alloc::{AllocError, Global};

// The text as which the program that a text spells is printed, where it is read.
fn printed_again(alloc: Global, text: &[u8]) -> Result<Option<Vec<u8>>, Memory> {
    match read(alloc, text) {
        Ok(program) => Ok(Some(print(alloc, &program)?)),
        Err(ReadError::Memory) => Err(AllocError),
        Err(_) => Ok(None),
    }
}

// Whether two texts are read as one program.
fn are_read_alike(alloc: Global, text: &[u8], other: &[u8]) -> Result<bool, Memory> {
    match (outcome_of(alloc, text)?, outcome_of(alloc, other)?) {
        (Outcome::Program(one), Outcome::Program(another)) => Ok(one == another),
        _ => Ok(false),
    }
}

// A text in one line, in which `/` stands for a line feed.
fn in_one_line(alloc: Global, text: &[u8]) -> Result<String, Memory> {
    let mut line = Vec::new(alloc);
    for byte in text {
        line.push(if *byte == b'\n' { b'/' } else { *byte })?;
    }
    String::from_str(alloc, str::from_utf8(&line).unwrap_or("no text"))
}

// A text in one line, if it is read and printed again as the same.
fn said(alloc: Global, text: &Vec<u8>) -> Result<String, Memory> {
    match printed_again(alloc, text)? {
        Some(again) if again == *text => in_one_line(alloc, text),
        _ => String::from_str(alloc, "differs"),
    }
}

/// The canonical text of the program that a text spells, in one line; `differs` if that is read as another program, or
/// is printed otherwise the second time.
pub(crate) fn printed(alloc: Global, text: &[u8]) -> Result<String, Memory> {
    match printed_again(alloc, text)? {
        Some(canonical) if are_read_alike(alloc, text, &canonical)? => said(alloc, &canonical),
        Some(_) => String::from_str(alloc, "differs"),
        None => String::from_str(alloc, "not read"),
    }
}

/// The text of the generated program of a number up to 100, in one line; `differs` if it is printed otherwise the
/// second time.
pub(crate) fn generated(alloc: Global, number: &str) -> Result<String, Memory> {
    let n = u32::try_from(number_of(number.as_bytes())).unwrap_or(0);
    let program = generate(alloc, n.min(100))?;
    said(alloc, &print(alloc, &program)?)
}
