//! Puts into sinks through the trait, as a caller that is generic over its sink makes them.

ghost use Rattle.std.specs.Prelude.{◌≤◌, IfOk};

use crate::scenarios::add_stops;
use crate::shelves::quoted;
use crate::words::{bytes_of, first_and_rest, first_part, number, push_item, word_of};
use model::Memory;
use outside_io::{MemorySink, OutSink, Sink, SteadySink};
use std::alloc::Global;
use std::io;
use std::io::Write;

// Puts the piece that is written, and says whether that works.
fn put_one<S: Sink>(alloc: Global, sink: &mut S, written: &str) -> Result<&'static str, Memory> {
    let piece = bytes_of(alloc, word_of(alloc, written)?.as_str())?;
    match sink.put(&piece) {
        Ok(()) => Ok("works"),
        Err(_) => Ok("fails"),
    }
}

/// Puts pieces into a sink, and says of each whether that works.
pub(crate) fn put_all<S: Sink>(
    alloc: Global,
    sink: &mut S,
    pieces: &str,
) -> Result<String, Memory> {
    let mut text = String::new(alloc);
    for written in pieces.split_whitespace() {
        let end = put_one(alloc, sink, written)?;
        push_item(&mut text, end)?;
    }
    Ok(text)
}

/// Puts pieces into a sink in memory, and says of each whether that works and what the sink holds then. The room of the
/// sink comes first; after an `@` follow the puts that fail.
pub(crate) fn memory_puts(alloc: Global, text: &str) -> Result<String, Memory> {
    let (pieces, written_stops) = first_part(text);
    let (room, pieces) = first_and_rest(pieces);
    let mut stops = Vec::new(alloc);
    add_stops(&mut stops, written_stops)?;
    let mut sink = MemorySink::new(alloc, number(room), stops)?;
    let mut text = quoted(alloc, sink.bytes())?;
    for written in pieces.split_whitespace() {
        let end = put_one(alloc, &mut sink, written)?;
        push_item(&mut text, end)?;
        push_item(&mut text, &quoted(alloc, sink.bytes())?)?;
    }
    Ok(text)
}

/// Puts pieces into a sink without faults, and says of each whether that works.
pub(crate) fn steady_puts(alloc: Global, pieces: &str) -> Result<String, Memory> {
    put_all(alloc, &mut SteadySink, pieces)
}

// A writer that takes one byte in each of the first `left` calls; in later calls it takes none, or fails.
#[derive(Drop)]
struct ShortWriter {
    left: u64,
    fails: bool,
}

impl ShortWriter {
    // Takes one byte, if it may.
    fn take(&mut self) -> io::Result<usize>
        ensures { IfOk result (λ count. count ≤ 1) }
    {
        if self.left > 0 {
            self.left -= 1;
            return Ok(1);
        }
        if self.fails {
            return Err(io::Error::from(io::ErrorKind::Other));
        }
        Ok(0)
    }
}

impl Write for ShortWriter {
    fn write(&mut self, buf: &[u8]) -> io::Result<usize> {
        if buf.is_empty() {
            return Ok(0);
        }
        self.take()
    }

    fn flush(&mut self) -> io::Result<()> {
        Ok(())
    }
}

/// Puts pieces over a writer that takes one byte in each call, and says of each whether that works. First comes how
/// many bytes it takes: after them it takes none, or fails if the number begins with `!`.
pub(crate) fn short_writes(alloc: Global, text: &str) -> Result<String, Memory> {
    let (count, pieces) = first_and_rest(text);
    let writer = ShortWriter {
        left: number(count.trim_start_matches('!')),
        fails: count.starts_with('!'),
    };
    put_all(alloc, &mut OutSink::over(writer), pieces)
}
