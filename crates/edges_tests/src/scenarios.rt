//! Scenarios: calls on one shelf and one sink, with the files of the shelf and the faults of both.

use crate::calls::{CallEnd, ample_sink, call_end, ends_text};
use crate::contents::contents;
use crate::words::{first_and_rest, first_part, number, word_of, words_of};
use model::Memory;
use outside_io::{MemoryFile, MemoryShelf, Stop};
use std::alloc::Global;

/// The words of each call, the files of the shelf, the numbers of the fetches that fail, and the puts that fail.
#[derive(Drop)]
pub(crate) struct Scenario {
    pub(crate) calls: Vec<Vec<String>>,
    pub(crate) files: Vec<MemoryFile>,
    pub(crate) failing: Vec<u64>,
    pub(crate) stops: Vec<Stop>,
}

/// The scenario that a text describes: the words of the first call, and after each `@` one of these parts: `then` and
/// the words of the next call; `failing` and the numbers of fetches; `stops` and puts, as `2:3` for the second one,
/// which fails after 3 bytes; or a kind of contents, the name of a file and its contents.
pub(crate) fn scenario_of(alloc: Global, text: &str) -> Result<Scenario, Memory> {
    let (first, parts) = first_part(text);
    let mut scenario = Scenario {
        calls: Vec::new(alloc),
        files: Vec::new(alloc),
        failing: Vec::new(alloc),
        stops: Vec::new(alloc),
    };
    scenario.calls.push(words_of(alloc, first)?)?;
    for part in parts.split('@') {
        let (kind, rest) = first_and_rest(part.trim());
        add_part(alloc, &mut scenario, kind, rest)?;
    }
    Ok(scenario)
}

// Adds a part of a scenario.
fn add_part(alloc: Global, scenario: &mut Scenario, kind: &str, rest: &str) -> Result<(), Memory> {
    match kind {
        "" => Ok(()),
        "then" => Ok(scenario.calls.push(words_of(alloc, rest)?)?),
        "failing" => add_numbers(&mut scenario.failing, rest),
        "stops" => add_stops(&mut scenario.stops, rest),
        _ => Ok(scenario.files.push(file_of(alloc, kind, rest)?)?),
    }
}

/// The file whose name and contents are written.
pub(crate) fn file_of(alloc: Global, kind: &str, text: &str) -> Result<MemoryFile, Memory> {
    let (name, written) = first_and_rest(text);
    Ok(MemoryFile {
        name: word_of(alloc, name)?,
        bytes: contents(alloc, kind, written)?,
    })
}

// Adds the numbers of a text.
fn add_numbers(numbers: &mut Vec<u64>, text: &str) -> Result<(), Memory> {
    for word in text.split_whitespace() {
        numbers.push(number(word))?;
    }
    Ok(())
}

/// Adds the puts of a text, each with how many bytes go out before it fails.
pub(crate) fn add_stops(stops: &mut Vec<Stop>, text: &str) -> Result<(), Memory> {
    for word in text.split_whitespace() {
        let (call, bytes) = word.split_once(':').unwrap_or((word, ""));
        stops.push(Stop {
            call: number(call),
            bytes: number(bytes),
        })?;
    }
    Ok(())
}

/// How the calls of a scenario end.
pub(crate) fn run_all(alloc: Global, scenario: Scenario) -> Result<Vec<CallEnd>, Memory> {
    let Scenario {
        calls,
        files,
        failing,
        stops,
    } = scenario;
    let mut shelf = MemoryShelf::new(files, failing);
    let mut sink = ample_sink(alloc, stops)?;
    let mut ends = Vec::new(alloc);
    for words in &calls {
        ends.push(call_end(alloc, words, &mut shelf, &mut sink)?)?;
    }
    Ok(ends)
}

/// How the calls of a scenario end, as text.
pub(crate) fn run_text(alloc: Global, text: &str) -> Result<String, Memory> {
    ends_text(alloc, &run_all(alloc, scenario_of(alloc, text)?)?)
}
