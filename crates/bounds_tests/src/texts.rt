//! Bounds as texts: read, printed, and refused with the position that shows it.

ghost use Rattle.std.specs.Prelude.{◌≡◌, map, IfOk};
ghost use Rattle.text_core.specs.Names.{name_of, AreNames};

use crate::postfix::{number, written};
use bound_expr::{Bound, Memory};
use bound_text::{BoundTextError, print, read};
use std::alloc::Global;
use text_core::Name;

fn name(alloc: Global, bytes: &[u8]) -> Result<Name, Memory>
    ensures { IfOk result (λ name. name_of name ≡ bytes.now) }
{
    Ok(Name {
        bytes: bytes.to_vec(alloc)?,
    })
}

// The names `A` and `B`.
fn two_names(alloc: Global) -> Result<Vec<Name>, Memory>
    ensures { IfOk result (λ names. AreNames (map name_of names.items)) }
{
    let mut names = Vec::new(alloc);
    names.push(name(alloc, b"A")?)?;
    names.push(name(alloc, b"B")?)?;
    Ok(names)
}

// The names `A`, `B`, `max`, `x.1` and `x.`.
fn five_names(alloc: Global) -> Result<Vec<Name>, Memory>
    ensures { IfOk result (λ names. AreNames (map name_of names.items)) }
{
    let mut names = Vec::new(alloc);
    names.push(name(alloc, b"A")?)?;
    names.push(name(alloc, b"B")?)?;
    names.push(name(alloc, b"max")?)?;
    names.push(name(alloc, b"x.1")?)?;
    names.push(name(alloc, b"x.")?)?;
    Ok(names)
}

// A bound, or why a text isn't one.
fn outcome_text(alloc: Global, outcome: Result<Bound, BoundTextError>) -> Result<String, Memory> {
    match outcome {
        Ok(bound) => written(alloc, &bound),
        Err(error) => format!(in alloc; "{error}"),
    }
}

/// The bound of a text, over `A` and `B`, or why it is refused.
pub(crate) fn read_text(alloc: Global, text: &str) -> Result<String, Memory> {
    outcome_text(alloc, read(alloc, &two_names(alloc)?, text.as_bytes()))
}

/// The text of the bound of a text, over `A`, `B`, `max`, `x.1` and `x.`.
pub(crate) fn printed_text(alloc: Global, text: &str) -> Result<String, Memory> {
    let names = five_names(alloc)?;
    match read(alloc, &names, text.as_bytes()) {
        Ok(bound) => {
            let bytes = print(alloc, &names, &bound)?;
            text_of(alloc, &bytes)
        }
        Err(error) => format!(in alloc; "{error}"),
    }
}

// Bytes as text.
fn text_of(alloc: Global, bytes: &[u8]) -> Result<String, Memory> {
    match str::from_utf8(bytes) {
        Ok(text) => String::from_str(alloc, text),
        Err(_) => String::from_str(alloc, "no text"),
    }
}

// Appends a piece this many times.
fn repeat(text: &mut String, piece: &str, count: u128) -> Result<(), Memory> {
    for _ in 0..count {
        text.push_str(piece)?;
    }
    Ok(())
}

/// The text of a number and three pieces between bars: the first piece this many times, the second one once, and the
/// third this many times.
pub(crate) fn repeated_text(alloc: Global, line: &str) -> Result<String, Memory> {
    let mut parts = line.split('|');
    let count = number(parts.next().unwrap_or("").as_bytes()).0;
    let mut text = String::new(alloc);
    repeat(&mut text, parts.next().unwrap_or(""), count)?;
    text.push_str(parts.next().unwrap_or(""))?;
    repeat(&mut text, parts.next().unwrap_or(""), count)?;
    read_text(alloc, text.as_str())
}

// How many letters from `a` to `z` a text ends with.
fn last_letters(text: &[u8]) -> usize {
    let mut count = 0usize;
    for byte in text {
        count = if byte.is_ascii_lowercase() {
            count.saturating_add(1)
        } else {
            0
        };
    }
    count
}

// `t` if the bytes are a text, `e` if they are refused at their end, and `u` if the letters that they end with aren't a
// listed name.
fn letter(alloc: Global, bytes: &[u8]) -> Result<&'static str, Memory> {
    let end = bytes.len();
    let name = end.saturating_sub(last_letters(bytes));
    Ok(match read(alloc, &two_names(alloc)?, bytes) {
        Ok(_) => "t",
        Err(BoundTextError::Syntax { at }) if at == end as u64 => "e",
        Err(BoundTextError::UnknownName { at }) if at == name as u64 => "u",
        Err(_) => "?",
    })
}

/// A letter for each proper prefix of a text, and for the text.
pub(crate) fn prefix_letters(alloc: Global, text: &str) -> Result<String, Memory> {
    let mut letters = String::new(alloc);
    for end in 0..text.len().saturating_add(1) {
        let prefix = text.as_bytes().get(..end).unwrap_or(b"");
        letters.push_str(letter(alloc, prefix)?)?;
    }
    Ok(letters)
}
