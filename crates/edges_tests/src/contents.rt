//! The contents of files.

use crate::calls::output_of;
use crate::words::{bytes_of, first_and_rest, number, word_of, words_of};
use model::Memory;
use std::alloc::Global;

/// The contents that a text describes, by their kind:
///
/// - `rules RULES`: the text of the program with these rules, which starts at l0;
/// - `repeat COUNT WORD`: the first byte of the word, `COUNT` times;
/// - `nest COUNT BEFORE%OPENING%INNER%CLOSING%AFTER`: a text in which the inner part is between `COUNT` openings and
///   as many closings;
/// - `lines COUNT BEFORE%LINE%AFTER`: a text that has the line `COUNT` times, each with its number, from 1 on, in
///   place of the `#`, if it has one;
/// - `output WORDS`: what the call with these words writes, which needs no file;
/// - `file TEXT`: the text itself.
pub(crate) fn contents(alloc: Global, kind: &str, text: &str) -> Result<Vec<u8>, Memory> {
    match kind {
        "rules" => program_text(alloc, text),
        "repeat" => repeated_byte(alloc, text),
        "nest" => nested_text(alloc, text),
        "lines" => numbered_lines(alloc, text),
        "output" => output_of(alloc, &words_of(alloc, text)?, &[]),
        _ => bytes_of(alloc, text),
    }
}

// The text of the program with these rules.
fn program_text(alloc: Global, rules: &str) -> Result<Vec<u8>, Memory> {
    let mut text = b"(STARTTERM (FUNCTIONSYMBOLS l0))(RULES ".to_vec(alloc)?;
    text.extend_from_slice(&bytes_of(alloc, rules)?)?;
    text.push(b')')?;
    Ok(text)
}

// The first byte of a word, this many times.
fn repeated_byte(alloc: Global, text: &str) -> Result<Vec<u8>, Memory> {
    let (count, written) = first_and_rest(text);
    let count = number(count) as usize;
    match word_of(alloc, written)?.as_bytes() {
        [byte, ..] => vec![in alloc; *byte; count],
        [] => Ok(Vec::new(alloc)),
    }
}

// The first part of a text, and what follows its `%`.
fn split_at_percent(text: &str) -> (&str, &str) {
    text.split_once('%').unwrap_or((text, ""))
}

// The text in which the inner part is between this many openings and as many closings.
fn nested_text(alloc: Global, text: &str) -> Result<Vec<u8>, Memory> {
    let (count, parts) = first_and_rest(text);
    let (before, parts) = split_at_percent(parts);
    let (opening, parts) = split_at_percent(parts);
    let (inner, parts) = split_at_percent(parts);
    let (closing, after) = split_at_percent(parts);
    let count = number(count) as usize;
    let mut bytes = bytes_of(alloc, before)?;
    bytes.extend_from_slice(opening.repeat(alloc, count)?.as_bytes())?;
    bytes.extend_from_slice(inner.as_bytes())?;
    bytes.extend_from_slice(closing.repeat(alloc, count)?.as_bytes())?;
    bytes.extend_from_slice(&bytes_of(alloc, after)?)?;
    Ok(bytes)
}

// The text that has a line this many times, each with its number.
fn numbered_lines(alloc: Global, text: &str) -> Result<Vec<u8>, Memory> {
    let (count, parts) = first_and_rest(text);
    let (before, parts) = split_at_percent(parts);
    let (line, after) = split_at_percent(parts);
    let mut bytes = bytes_of(alloc, before)?;
    for k in 1..=number(count) {
        bytes.extend_from_slice(&numbered_line(alloc, line, k)?)?;
    }
    bytes.extend_from_slice(&bytes_of(alloc, after)?)?;
    Ok(bytes)
}

// A line with a number in place of its `#`, if it has one.
fn numbered_line(alloc: Global, line: &str, k: u64) -> Result<Vec<u8>, Memory> {
    match line.split_once('#') {
        Some((front, back)) => bytes_of(alloc, format!(in alloc; "{front}{k}{back}")?.as_str()),
        None => bytes_of(alloc, line),
    }
}
