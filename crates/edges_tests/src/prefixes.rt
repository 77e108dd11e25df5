//! Scenarios that are run again and again: with each prefix of a file, and with each prefix of the written text.

use crate::calls::{CallEnd, ends_text};
use crate::scenarios::{run_all, scenario_of};
use crate::words::{bytes_of, first_and_rest, first_part, push_item, word_of};
use model::Memory;
use outside_io::{MemoryFile, Stop};
use std::alloc::Global;

// The results of numbered runs, in the order of their numbers. The text names each number whose run had another result
// than the run before it.
#[derive(Drop)]
struct Changes {
    text: String,
    last: String,
}

impl Changes {
    // No runs.
    fn new(alloc: Global) -> Changes {
        Changes {
            text: String::new(alloc),
            last: String::new(alloc),
        }
    }

    // Adds the result of the run with a number.
    fn add(&mut self, alloc: Global, number: usize, run_result: String) -> Result<(), Memory> {
        if run_result != self.last {
            let item = format!(in alloc; "from {number}: {run_result}")?;
            push_item(&mut self.text, item.as_str())?;
            self.last = run_result;
        }
        Ok(())
    }
}

/// For the prefixes of a file, by their lengths, wherever it changes: the status of the first call, and how the other
/// calls end. The file comes first, as its name and its text; then an `@` and the scenario, whose shelf holds the prefix,
/// too.
pub(crate) fn prefixes(alloc: Global, text: &str) -> Result<String, Memory> {
    let (file, scenario) = first_part(text);
    let (name, written) = first_and_rest(file.trim());
    let whole = bytes_of(alloc, written)?;
    let mut changes = Changes::new(alloc);
    for count in 0..=whole.len() {
        let prefix = whole.get(..count).unwrap_or(&[]);
        let ends = run_with_file(alloc, scenario, name, prefix)?;
        changes.add(alloc, count, first_status_and_ends(alloc, &ends)?)?;
    }
    Ok(changes.text)
}

// How the calls of a scenario end if the shelf holds one more file.
fn run_with_file(
    alloc: Global,
    scenario: &str,
    name: &str,
    bytes: &[u8],
) -> Result<Vec<CallEnd>, Memory> {
    let mut scenario = scenario_of(alloc, scenario)?;
    scenario.files.push(MemoryFile {
        name: word_of(alloc, name)?,
        bytes: bytes.to_vec(alloc)?,
    })?;
    run_all(alloc, scenario)
}

// The status of the first call, and how the others end.
fn first_status_and_ends(alloc: Global, ends: &[CallEnd]) -> Result<String, Memory> {
    let Some((first, others)) = ends.split_first() else {
        return Ok(String::new(alloc));
    };
    let (status, others) = (first.status, ends_text(alloc, others)?);
    format!(in alloc; "{status:?} @ {others}")
}

/// For the numbers of bytes below the length of the first call's text, wherever it changes: whether what was written is
/// the prefix of the text with this many bytes if the first call's put fails after them, the call's status, and how the
/// other calls end; and the length.
pub(crate) fn short_puts(alloc: Global, scenario: &str) -> Result<String, Memory> {
    let whole = first_text(alloc, &run_all(alloc, scenario_of(alloc, scenario)?)?)?;
    let length = whole.len();
    let mut changes = Changes::new(alloc);
    for count in 0..length {
        let ends = run_with_stop(alloc, scenario, count as u64)?;
        let prefix = whole.get(..count).unwrap_or(&[]);
        let is_prefix = if first_text(alloc, &ends)?.as_slice() == prefix {
            "a prefix"
        } else {
            "other bytes"
        };
        let status = first_status_and_ends(alloc, &ends)?;
        changes.add(alloc, count, format!(in alloc; "{is_prefix}, {status}")?)?;
    }
    let text = changes.text;
    format!(in alloc; "{text}, of {length} bytes")
}

// How the calls of a scenario end if the first put fails after this many bytes.
fn run_with_stop(alloc: Global, scenario: &str, bytes: u64) -> Result<Vec<CallEnd>, Memory> {
    let mut scenario = scenario_of(alloc, scenario)?;
    scenario.stops.push(Stop { call: 1, bytes })?;
    run_all(alloc, scenario)
}

// What the first call wrote.
fn first_text(alloc: Global, ends: &[CallEnd]) -> Result<Vec<u8>, Memory> {
    match ends {
        [first, ..] => first.text.as_slice().to_vec(alloc),
        [] => Ok(Vec::new(alloc)),
    }
}
