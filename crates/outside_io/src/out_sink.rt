//! A writer of the system as a sink. What its standard output received is trusted to the operating system.

ghost use Rattle.std.specs.Prelude.{◌≡◌, ◌≤◌, Some, IsSome, OnOk, OnErr};
ghost use Rattle.std.specs.Io.KnownBytes.{Appends};
ghost use Rattle.outside_io.specs.Putting.{AppendsPrefix};

use crate::sink::{PutFailed, Sink};
use std::io;
use std::io::{Print, Printer, Write};

/// A writer as a sink; by default, the standard output of the operating system. It discloses what was written if the
/// writer does, and standard output doesn't.
#[derive(Debug, Drop)]
pub struct OutSink<W> {
    writer: W,
    calls: u64,
    faults: u64,
}

impl<'a, R: Print> OutSink<Printer<'a, R>> {
    ghost use Rattle.outside_io.specs.OutSink.{put_count, fault_count};

    /// The standard output of the runtime that `main` is given.
    pub fn new(runtime: &'a R) -> OutSink<Printer<'a, R>>
        ensures no_calls { put_count result ≡ 0 }
        ensures no_faults { fault_count result ≡ 0 }
    {
        OutSink {
            writer: io::writer(runtime),
            calls: 0,
            faults: 0,
        }
    }
}

impl<W: Write> OutSink<W> {
    ghost use Rattle.outside_io.specs.OutSink.{put_count, fault_count, writer_of};

    /// The sink of this writer.
    pub fn over(writer: W) -> OutSink<W>
        ensures writer { writer_of result ≡ writer }
        ensures no_calls { put_count result ≡ 0 }
        ensures no_faults { fault_count result ≡ 0 }
    {
        OutSink {
            writer,
            calls: 0,
            faults: 0,
        }
    }
}

impl<W: Write> Sink for OutSink<W> {
    ghost use Rattle.outside_io.specs.Counts.{next_count, one_more};
    ghost use Rattle.outside_io.specs.OutSink.{put_count, fault_count, writer_of};

    ghost written = { λ sink. W.contents (writer_of sink) };

    ghost puts = { λ sink. Some (put_count sink) };

    ghost faults = { fault_count };

    /// As the trait says. It fails where the writer refuses to write, or writes nothing while some of the piece
    /// remains.
    fn put(&mut self, piece: &[u8]) -> Result<(), PutFailed>
        ensures keeps_disclosing { IsSome (W.contents (writer_of self.old)) → IsSome (W.contents (writer_of self.new)) }
        ensures keeps_count { fault_count self.old ≤ fault_count self.new }
        ensures counted { Some (put_count self.new) ≡ one_more (Some (put_count self.old)) }

        ensures ok { OnOk result
            (Appends (W.contents (writer_of self.old)) (W.contents (writer_of self.new)) piece.now) }
        ensures ok_count { OnOk result (fault_count self.new ≡ fault_count self.old) }

        ensures failed { OnErr result (fault_count self.new ≡ next_count (fault_count self.old)) }
        ensures prefix { OnErr result
            (AppendsPrefix (W.contents (writer_of self.old)) (W.contents (writer_of self.new)) piece.now) }
    {
        self.calls = self.calls.saturating_add(1);
        let written = write_whole(&mut self.writer, piece);
        if written.is_err() {
            self.faults = self.faults.saturating_add(1);
        }
        written
    }
}

// Writes the piece, part after part.
fn write_whole<W: Write>(writer: &mut W, piece: &[u8]) -> Result<(), PutFailed>
    ensures keeps_disclosing { IsSome (W.contents writer.old) → IsSome (W.contents writer.new) }
    ensures ok { OnOk result (Appends (W.contents writer.old) (W.contents writer.new) piece.now) }
    ensures prefix { OnErr result (AppendsPrefix (W.contents writer.old) (W.contents writer.new) piece.now) }
{
    let mut written = 0;
    while written < piece.len() {
        match writer.write(&piece[written..]) {
            Ok(count) if count > 0 => written += count,
            _ => return Err(PutFailed),
        }
    }
    Ok(())
}
