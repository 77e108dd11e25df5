//! The answer to a line: a call, and after a blank the text of a while program, in a short notation.

use crate::writing::text_of;
use its_writer::print;
use poly_terms::Memory;
use std::alloc::{AllocError, Global};
use while_front::translate;
use while_text::{WhileError, WhileKind, Whole, read_while};

/// Answers a line. `read` is answered by the positions of the statements, `count` by their number, and `rules` by the
/// text of the translated program in one line; a refusal by its kind and its position.
pub(crate) fn answer(alloc: Global, line: &str) -> Result<String, Memory> {
    let Some((call, rest)) = line.split_once(' ') else {
        return String::from_str(alloc, line);
    };
    match call {
        "#" => String::from_str(alloc, line),
        "read" => positions(alloc, &text_of(alloc, rest)?),
        "count" => count(alloc, &text_of(alloc, rest)?),
        "rules" => rules(alloc, &text_of(alloc, rest)?),
        _ => String::from_str(alloc, "no call"),
    }
}

// The positions of the statements of a text.
fn positions(alloc: Global, text: &[u8]) -> Result<String, Memory> {
    match read_while(alloc, text) {
        Ok(whole) => listed(alloc, &whole),
        Err(error) => refusal(alloc, &error),
    }
}

// Positions, one after the other.
fn listed(alloc: Global, whole: &Whole) -> Result<String, Memory> {
    let mut line = String::from_str(alloc, "at")?;
    for at in &whole.at {
        let more = format!(in alloc; " {at}")?;
        line.push_str(&more)?;
    }
    Ok(line)
}

// The number of statements of a text.
fn count(alloc: Global, text: &[u8]) -> Result<String, Memory> {
    match read_while(alloc, text) {
        Ok(whole) => {
            let count = whole.at.len();
            format!(in alloc; "{count} statements")
        }
        Err(error) => refusal(alloc, &error),
    }
}

// The rules of the program that a text is translated into.
fn rules(alloc: Global, text: &[u8]) -> Result<String, Memory> {
    match read_while(alloc, text) {
        Ok(whole) => {
            let program = translate(alloc, &whole)?;
            in_one_line(alloc, &print(alloc, &program)?)
        }
        Err(error) => refusal(alloc, &error),
    }
}

// A text in one line, in which `/` stands for a line feed.
fn in_one_line(alloc: Global, text: &[u8]) -> Result<String, Memory> {
    let mut line = Vec::new(alloc);
    for byte in text {
        line.push(if *byte == b'\n' { b'/' } else { *byte })?;
    }
    String::from_str(alloc, str::from_utf8(&line).unwrap_or("no text"))
}

// A refusal.
fn refusal(alloc: Global, error: &WhileError) -> Result<String, Memory> {
    match error {
        WhileError::NotAscii { at } => format!(in alloc; "NotAscii at {at}"),
        WhileError::Syntax { at } => format!(in alloc; "Syntax at {at}"),
        WhileError::NumberTooLarge { at } => format!(in alloc; "NumberTooLarge at {at}"),
        WhileError::UnknownName { at } => format!(in alloc; "UnknownName at {at}"),
        WhileError::RepeatedName { at } => format!(in alloc; "RepeatedName at {at}"),
        WhileError::Limit { kind, at } => {
            let kind = kind_name(*kind);
            format!(in alloc; "Limit {kind} at {at}")
        }
        WhileError::Memory => Err(AllocError),
    }
}

// A limit by its name.
fn kind_name(kind: WhileKind) -> &'static str {
    match kind {
        WhileKind::Name => "Name",
        WhileKind::Tokens => "Tokens",
        WhileKind::Terms => "Terms",
        WhileKind::Degree => "Degree",
        WhileKind::Atoms => "Atoms",
        WhileKind::Variables => "Variables",
        WhileKind::Depth => "Depth",
        WhileKind::Rules => "Rules",
    }
}
