//! Proof files that `prove` writes, and how much of the report their check confirms.

use crate::calls::output_of;
use crate::scenarios::file_of;
use crate::words::{first_and_rest, words_of};
use model::Memory;
use outside_io::MemoryFile;
use std::alloc::Global;

/// How many lines the answer of `check` has for the proof file that `prove` writes for the file `p`, and how many
/// times, sizes and costs of the report on `p` are among them. All three calls have to end with the status `Done`.
pub(crate) fn prove_and_check(alloc: Global, text: &str) -> Result<String, Memory> {
    let (kind, rest) = first_and_rest(text);
    let mut files = Vec::new(alloc);
    files.push(file_of(alloc, kind, rest)?)?;
    let report = output_of(alloc, &words_of(alloc, "analyse p")?, &files)?;
    let bytes = output_of(alloc, &words_of(alloc, "prove p")?, &files)?;
    files.push(MemoryFile {
        name: String::from_str(alloc, "q")?,
        bytes,
    })?;
    let facts = output_of(alloc, &words_of(alloc, "check p q")?, &files)?;
    let (lines, bounds) = (line_count(&facts), common_bounds(&facts, &report));
    format!(in alloc; "{lines} lines, {bounds} bounds of the report")
}

// How many lines a text has.
fn line_count(text: &[u8]) -> u64 {
    let mut count = 0u64;
    for byte in text {
        if *byte == b'\n' {
            count = count.saturating_add(1);
        }
    }
    count
}

// How many times, sizes and costs of a report are lines of the facts, too.
fn common_bounds(facts: &[u8], report: &[u8]) -> u64 {
    let mut count = 0u64;
    for line in report.split(|byte| *byte == b'\n') {
        if is_bound(line) && has_line(facts, line) {
            count = count.saturating_add(1);
        }
    }
    count
}

// Whether a line states a time, a size or a cost.
fn is_bound(line: &[u8]) -> bool {
    line.starts_with(b"time ") || line.starts_with(b"size ") || line.starts_with(b"cost ")
}

// Whether a text has a line.
fn has_line(text: &[u8], line: &[u8]) -> bool {
    for other in text.split(|byte| *byte == b'\n') {
        if other == line {
            return true;
        }
    }
    false
}
