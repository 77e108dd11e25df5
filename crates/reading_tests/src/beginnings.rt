//! Every proper prefix of a text.

use crate::outcomes::{Outcome, outcome_of};
use model::Memory;
use std::alloc::Global;

// The result for a prefix: a refusal, with its byte if this isn't the end.
fn outcome_text(alloc: Global, text: &[u8]) -> Result<String, Memory> {
    match outcome_of(alloc, text)? {
        Outcome::Program(_) => String::from_str(alloc, "read"),
        Outcome::Refused(kind, at) if at == text.len() as u64 => {
            format!(in alloc; "{kind} at the end")
        }
        Outcome::Refused(kind, at) => format!(in alloc; "{kind} at {at}"),
    }
}

// Adds the result for prefixes up to this many bytes.
fn add(alloc: Global, all: &mut String, length: usize, words: &str) -> Result<(), Memory> {
    let separator = if all.is_empty() { "" } else { ", " };
    all.push_str(format!(in alloc; "{separator}{length}: {words}")?.as_str())
}

/// The results for the proper prefixes of a text: each refusal, and up to prefixes of how many bytes it comes.
pub(crate) fn beginnings(alloc: Global, text: &[u8]) -> Result<String, Memory> {
    let mut all = String::new(alloc);
    let mut now = outcome_text(alloc, b"")?;
    for length in 1..text.len() {
        let next = outcome_text(alloc, text.get(..length).unwrap_or(b""))?;
        if next != now {
            add(alloc, &mut all, length.saturating_sub(1), now.as_str())?;
            now = next;
        }
    }
    add(alloc, &mut all, text.len().saturating_sub(1), now.as_str())?;
    Ok(all)
}

/// How many proper prefixes of a text are read.
pub(crate) fn beginnings_read(alloc: Global, text: &[u8]) -> Result<String, Memory> {
    let mut count = 0usize;
    for length in 0..text.len() {
        let beginning = text.get(..length).unwrap_or(b"");
        if matches!(outcome_of(alloc, beginning)?, Outcome::Program(_)) {
            count = count.saturating_add(1);
        }
    }
    format!(in alloc; "{count}")
}
