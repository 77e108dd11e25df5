//! Numbers in words.

use model::Memory;
use std::alloc::Global;

/// The parts of a word that a character divides.
pub(crate) fn parts_of<'a>(alloc: Global, word: &'a str, at: char) -> Result<Vec<&'a str>, Memory> {
    let mut parts = Vec::new(alloc);
    for part in word.split(at) {
        parts.push(part)?;
    }
    Ok(parts)
}

/// The part with a number, from 0; where there is none, the empty one.
pub(crate) fn part<'a>(parts: &[&'a str], position: usize) -> &'a str {
    match parts.get(position) {
        Some(part) => *part,
        None => "",
    }
}

/// A number; of other words, 0.
pub(crate) fn number(word: &str) -> u32 {
    word.parse::<u32>().unwrap_or(0)
}

/// A wide number; of other words, 0.
pub(crate) fn wide(word: &str) -> u64 {
    word.parse::<u64>().unwrap_or(0)
}

/// Numbers divided by commas.
pub(crate) fn numbers(alloc: Global, list: &str) -> Result<Vec<u32>, Memory> {
    let mut found = Vec::new(alloc);
    for word in list.split(',') {
        if let Ok(n) = word.parse::<u32>() {
            found.push(n)?;
        }
    }
    Ok(found)
}

/// Wide numbers divided by commas.
pub(crate) fn wides(alloc: Global, list: &str) -> Result<Vec<u64>, Memory> {
    let mut found = Vec::new(alloc);
    for word in list.split(',') {
        if let Ok(n) = word.parse::<u64>() {
            found.push(n)?;
        }
    }
    Ok(found)
}

/// Numbers with signs, divided by commas.
pub(crate) fn signed(alloc: Global, list: &str) -> Result<Vec<i64>, Memory> {
    let mut found = Vec::new(alloc);
    for word in list.split(',') {
        if let Ok(n) = word.parse::<i64>() {
            found.push(n)?;
        }
    }
    Ok(found)
}

/// The first number, or 0, and those after it.
pub(crate) fn first_and_rest(alloc: Global, list: &[i64]) -> Result<(i64, Vec<i64>), Memory> {
    match list.split_first() {
        Some((first, rest)) => Ok((*first, rest.to_vec(alloc)?)),
        None => Ok((0, Vec::new(alloc))),
    }
}
