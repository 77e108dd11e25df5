//! Words, numbers and texts as lines write them.

use model::Memory;
use std::alloc::Global;

/// The first word of a text, and what follows the space after it.
pub(crate) fn first_and_rest(text: &str) -> (&str, &str) {
    text.split_once(' ').unwrap_or((text, ""))
}

/// The part of a text before the first `@`, and what follows it.
pub(crate) fn first_part(text: &str) -> (&str, &str) {
    text.split_once('@').unwrap_or((text, ""))
}

/// A number; 0 if the word isn't one.
pub(crate) fn number(word: &str) -> u64 {
    word.parse::<u64>().unwrap_or(0)
}

/// The word that is written: `''` is the empty word, and `_` stands for a space.
pub(crate) fn word_of(alloc: Global, written: &str) -> Result<String, Memory> {
    if written == "''" {
        Ok(String::new(alloc))
    } else {
        written.replace(alloc, '_', " ")
    }
}

/// The words of a text, which spaces divide.
pub(crate) fn words_of(alloc: Global, text: &str) -> Result<Vec<String>, Memory> {
    let mut words = Vec::new(alloc);
    for written in text.split_whitespace() {
        words.push(word_of(alloc, written)?)?;
    }
    Ok(words)
}

/// The bytes of a text, in which `~` stands for a line feed.
pub(crate) fn bytes_of(alloc: Global, text: &str) -> Result<Vec<u8>, Memory> {
    let mut bytes = Vec::new(alloc);
    for byte in text.as_bytes() {
        bytes.push(if *byte == b'~' { b'\n' } else { *byte })?;
    }
    Ok(bytes)
}

/// Appends bytes to a text, with `~` for each line feed.
pub(crate) fn push_bytes(text: &mut String, bytes: &[u8]) -> Result<(), Memory> {
    for byte in bytes {
        let shown = if *byte == b'\n' { b'~' } else { *byte };
        text.push(char::from(shown))?;
    }
    Ok(())
}

/// Appends an item to a list in a text, after a comma unless it is the first.
pub(crate) fn push_item(text: &mut String, item: &str) -> Result<(), Memory> {
    if !text.is_empty() {
        text.push_str(", ")?;
    }
    text.push_str(item)
}
