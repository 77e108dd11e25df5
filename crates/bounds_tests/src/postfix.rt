//! Bounds in postfix: `v2` is a variable and `c7` a constant; `+2`, `*2` and `m2` are the sum, the product and the
//! maximum of the last two parts on the stack, and `^2` is 2 to the power of the last one. After a word, `#9` repeats
//! it nine times, and `..9` repeats it with each number from its own on to 9, up or down; words with commas between
//! them are repeated together, for each number that one of them goes through.

use bound_expr::{Bound, Memory};
use std::alloc::Global;

// Of a bound with more nodes only its measure is written.
const WRITTEN_NODES: u64 = 100;

/// The number that a text begins with, and how many digits it has.
pub(crate) fn number(text: &[u8]) -> (u128, usize) {
    let mut value = 0u128;
    let mut len = 0usize;
    for byte in text {
        if !byte.is_ascii_digit() {
            return (value, len);
        }
        value = value
            .saturating_mul(10)
            .saturating_add(u128::from(byte.wrapping_sub(b'0')));
        len = len.saturating_add(1);
    }
    (value, len)
}

// The last parts on the stack.
fn last(standing: &mut Vec<Bound>, count: u128) -> Result<Vec<Bound>, Memory> {
    let count = usize::try_from(count).unwrap_or(0);
    let at = standing.len().saturating_sub(count);
    standing.split_off(at)
}

// Pushes the part of a mark and a number on the stack.
fn push(alloc: Global, standing: &mut Vec<Bound>, mark: u8, number: u128) -> Result<(), Memory> {
    let part = match mark {
        b'v' => Bound::Var(u32::try_from(number).unwrap_or(0)),
        b'c' => Bound::Const(number),
        b'+' => Bound::Sum(last(standing, number)?),
        b'*' => Bound::Prod(last(standing, number)?),
        b'm' => Bound::Max(last(standing, number)?),
        _ => Bound::Power(
            u64::try_from(number).unwrap_or(0),
            Box::new(alloc, standing.pop().unwrap_or(Bound::Const(0)))?,
        ),
    };
    standing.push(part)?;
    Ok(())
}

// The first and the last number of a word that goes through numbers.
fn ends(word: &[u8]) -> Option<(u128, u128)> {
    let Some((_, rest)) = word.split_first() else {
        return None;
    };
    let (first, len) = number(rest);
    match rest.get(len..).unwrap_or(b"") {
        [b'.', b'.', end @ ..] => Some((first, number(end).0)),
        _ => None,
    }
}

// The first and the last number of the first of some words that goes through numbers.
fn ends_among(words: &[u8]) -> Option<(u128, u128)> {
    for word in words.split(|byte| *byte == b',') {
        let found = ends(word);
        if found.is_some() {
            return found;
        }
    }
    None
}

// Pushes the part of a word on the stack; where it goes through numbers, with this one.
fn push_word(
    alloc: Global,
    standing: &mut Vec<Bound>,
    word: &[u8],
    now: u128,
) -> Result<(), Memory> {
    let Some((mark, rest)) = word.split_first() else {
        return Ok(());
    };
    let (value, len) = number(rest);
    match rest.get(len..).unwrap_or(b"") {
        [b'#', times @ ..] => {
            for _ in 0..number(times).0 {
                push(alloc, standing, *mark, value)?;
            }
            Ok(())
        }
        [b'.', b'.', ..] => push(alloc, standing, *mark, now),
        _ => push(alloc, standing, *mark, value),
    }
}

// Pushes the parts of words on the stack, all of them again for each number from the first to the last, up or down.
fn push_each(
    alloc: Global,
    standing: &mut Vec<Bound>,
    words: &[u8],
    first: u128,
    last: u128,
) -> Result<(), Memory> {
    for further in 0..first.abs_diff(last).saturating_add(1) {
        let now = if first < last {
            first.saturating_add(further)
        } else {
            first.saturating_sub(further)
        };
        for word in words.split(|byte| *byte == b',') {
            push_word(alloc, standing, word, now)?;
        }
    }
    Ok(())
}

/// The bounds that a text in postfix leaves on the stack.
pub(crate) fn bounds(alloc: Global, text: &str) -> Result<Vec<Bound>, Memory> {
    let mut standing = Vec::new(alloc);
    for word in text.split_whitespace() {
        let (first, last) = ends_among(word.as_bytes()).unwrap_or((0, 0));
        push_each(alloc, &mut standing, word.as_bytes(), first, last)?;
    }
    Ok(standing)
}

/// A bound in postfix; of a large one its nodes and levels.
pub(crate) fn written(alloc: Global, bound: &Bound) -> Result<String, Memory> {
    let (nodes, levels) = bound.measure();
    if nodes > WRITTEN_NODES {
        return format!(in alloc; "{nodes} nodes, {levels} levels");
    }
    let mut text = String::new(alloc);
    write(alloc, &mut text, bound)?;
    Ok(text)
}

// Writes the words of a bound after others.
#[cycle(write)]
fn write(alloc: Global, text: &mut String, bound: &Bound) -> Result<(), Memory> {
    match bound {
        Bound::Const(number) => add(text, format!(in alloc; "c{number}")?.as_str()),
        Bound::Var(i) => add(text, format!(in alloc; "v{i}")?.as_str()),
        Bound::Sum(parts) => write_node(alloc, text, parts, "+"),
        Bound::Prod(parts) => write_node(alloc, text, parts, "*"),
        Bound::Max(parts) => write_node(alloc, text, parts, "m"),
        Bound::Power(base, exponent) => {
            write(alloc, text, exponent)?;
            add(text, format!(in alloc; "^{base}")?.as_str())
        }
    }
}

#[cycle(write)]
fn write_node(alloc: Global, text: &mut String, parts: &[Bound], mark: &str) -> Result<(), Memory> {
    for part in parts {
        write(alloc, text, part)?;
    }
    let count = parts.len();
    add(text, format!(in alloc; "{mark}{count}")?.as_str())
}

// Adds a word, after a blank if it isn't the first.
fn add(text: &mut String, word: &str) -> Result<(), Memory> {
    if !text.is_empty() {
        text.push_str(" ")?;
    }
    text.push_str(word)
}
