//! Numbers in words.

use model::Memory;
use std::alloc::Global;

/// The numbers among words.
pub(crate) fn numbers(alloc: Global, words: &str) -> Result<Vec<i128>, Memory> {
    let mut found = Vec::new(alloc);
    for word in words.split_whitespace() {
        if let Ok(number) = word.parse::<i128>() {
            found.push(number)?;
        }
    }
    Ok(found)
}

/// A number that isn't negative; of other words, 0.
pub(crate) fn number(word: &str) -> u32 {
    word.trim().parse::<u32>().unwrap_or(0)
}

/// The first number, and those after it.
pub(crate) fn first_and_rest(alloc: Global, words: &str) -> Result<(u32, Vec<i128>), Memory> {
    let all = numbers(alloc, words)?;
    match all.split_first() {
        Some((first, rest)) => Ok((u32::try_from(*first).unwrap_or(0), rest.to_vec(alloc)?)),
        None => Ok((0, all)),
    }
}
