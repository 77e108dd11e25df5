//! Calls of the program's top function, and how they end.

use crate::words::push_bytes;
use koat_cli::{Status, run};
use model::Memory;
use outside_io::{MemoryFile, MemoryShelf, MemorySink, Stop};
use std::alloc::Global;

// How many bytes a sink takes in all.
const ROOM: u64 = 99_999;

/// How a call ended: its status, how many fetches were made up to its end, and what it wrote.
#[derive(Drop)]
pub(crate) struct CallEnd {
    pub(crate) status: Status,
    pub(crate) fetches: u64,
    pub(crate) text: Vec<u8>,
}

/// A sink with ample room, whose only faults are these.
pub(crate) fn ample_sink(alloc: Global, stops: Vec<Stop>) -> Result<MemorySink, Memory> {
    MemorySink::new(alloc, ROOM, stops)
}

/// How the call with these words ends.
pub(crate) fn call_end(
    alloc: Global,
    words: &[String],
    shelf: &mut MemoryShelf,
    sink: &mut MemorySink,
) -> Result<CallEnd, Memory> {
    let before = sink.bytes().len();
    let status = run(alloc, words, shelf, sink);
    let text = sink.bytes().get(before..).unwrap_or(&[]).to_vec(alloc)?;
    Ok(CallEnd {
        status,
        fetches: shelf.calls(),
        text,
    })
}

/// The ends of calls as text: `STATUS FETCHES: TEXT`, divided by `@`.
pub(crate) fn ends_text(alloc: Global, ends: &[CallEnd]) -> Result<String, Memory> {
    let mut text = String::new(alloc);
    for end in ends {
        if !text.is_empty() {
            text.push_str(" @ ")?;
        }
        let (status, fetches) = (end.status, end.fetches);
        text.push_str(&format!(in alloc; "{status:?} {fetches}: ")?)?;
        push_bytes(&mut text, &end.text)?;
    }
    Ok(text)
}

/// What the call with these words writes, on a shelf of copies of the files; nothing unless its status is `Done`.
pub(crate) fn output_of(
    alloc: Global,
    words: &[String],
    files: &[MemoryFile],
) -> Result<Vec<u8>, Memory> {
    let mut copies = Vec::new(alloc);
    for file in files {
        copies.push(file.clone()?)?;
    }
    let mut shelf = MemoryShelf::new(copies, Vec::new(alloc));
    let mut sink = ample_sink(alloc, Vec::new(alloc))?;
    match run(alloc, words, &mut shelf, &mut sink) {
        Status::Done => sink.bytes().to_vec(alloc),
        _ => Ok(Vec::new(alloc)),
    }
}
