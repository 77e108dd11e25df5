//! Reads a reader to its end, up to a limit.

ghost use Rattle.std.specs.Prelude.{◌≡◌, ◌≤◌, ◌<◌, ◌+◌, ℕ, List, Option, IfOk, IfSome, OnOk, OnErr, IsErrOf, length};
ghost use Rattle.std.specs.Io.KnownBytes.{Consumes, IsAtEnd};

use crate::shelf::FetchError;
use std::alloc::Global;
use std::io::Read;

// The most bytes that are read at once.
const CHUNK: usize = 4096;

// All bytes that the reader gives to its end, if there are at most `limit`. Then `taken` is how many
// were taken: at most one more than `limit`, also where the call fails.
pub(crate) fn read_to_end<T: Read>(
    reader: &mut T,
    alloc: Global,
    limit: u64,
    taken: &mut u64,
) -> Result<Vec<u8>, FetchError>
    ensures whole { IfOk result (λ file. IfSome (T.remaining reader.old) (λ all. file.items ≡ all)) }
    ensures within { IfOk result (λ file. length file.items ≤ limit) }
    ensures takes { IfOk result (λ file. taken.new ≡ length file.items) }
    ensures bounded { taken.new ≤ limit + 1 }
    ensures too_long { IsErrOf result FetchError.TooLong → limit < taken.new }
    ensures exceeds { IsErrOf result FetchError.TooLong
        → IfSome (T.remaining reader.old) (λ all. limit < length all) }
{
    *taken = 0;
    let mut bytes = Vec::new(alloc);
    let mut chunk = [0; CHUNK];
    loop {
        if read_chunk(reader, &mut bytes, &mut chunk, limit)? == 0 {
            return Ok(bytes);
        }
        *taken = bytes.len() as u64;
        if *taken > limit {
            return Err(FetchError::TooLong);
        }
    }
}

// Reads at least one byte, unless the reader is at its end, and never more than one byte past `limit` in all. The bytes
// read so far and those left in the reader together don't change. The chunk is the buffer for one read.
fn read_chunk<T: Read>(
    reader: &mut T,
    bytes: &mut Vec<u8>,
    chunk: &mut [u8; CHUNK],
    limit: u64,
) -> Result<usize, FetchError>
    requires { length bytes.old.items ≤ limit }
    ensures count { IfOk result (λ count. length bytes.new.items ≡ length bytes.old.items + count) }
    ensures whole { OnOk result ((all : Option (List ℕ))
        → Consumes all (T.remaining reader.old) bytes.old.items
        → Consumes all (T.remaining reader.new) bytes.new.items) }
    ensures end { IfOk result (λ count. count ≡ 0 → IsAtEnd (T.remaining reader.new)) }
    ensures bounded { length bytes.new.items ≤ limit + 1 }
    ensures err { OnErr result (bytes.new.items ≡ bytes.old.items) }
    ensures not_too_long { ¬ (IsErrOf result FetchError.TooLong) }
{
    let room = limit - bytes.len() as u64;
    let wanted = if room < CHUNK as u64 {
        room as usize + 1
    } else {
        CHUNK
    };
    // With room made first, no byte that was taken is lost.
    bytes.reserve(wanted)?;
    let count = reader
        .read(&mut chunk[..wanted])
        .map_err(|_| FetchError::Failed)?;
    let _ = bytes.extend_from_slice(&chunk[..count]);
    Ok(count)
}
