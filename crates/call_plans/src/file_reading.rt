//! Fetches a file and reads it.

ghost use Rattle.std.specs.Prelude.{◌≡◌, ◌≤◌, ◌<◌, ℕ, List, IfOk, string_bytes};
ghost use Rattle.outside_io.specs.Counts.{one_more};
ghost use Rattle.call_plans.specs.Calls.{ShelfUse, shelf_use_of};
ghost use Rattle.call_plans.specs.OnFiles.{Fetches};
ghost use Rattle.call_plans.specs.Steps.{IsFetchResult, IsFault};

use crate::reader::{Read, Reader};
use crate::status::Status;
use crate::status_text::{StatusText, status_with_text};
use model::Memory;
use outside_io::{FetchError, Shelf};
use std::alloc::{AllocError, Global};

/// The result of fetching and reading a file.
#[derive(Drop)]
pub enum FetchResult<T> {
    /// The meaning of its text.
    Meaning(T),
    /// The answer if the file has no text of the kind.
    Answer(StatusText),
}

/// Fetches a file, once, and reads its text. The shelf's contents don't change.
///
/// The answer is a fault of reading where the shelf can't give the file; and else a refusal where the file has too many
/// bytes for a text of the kind, or its bytes have no meaning.
///
/// # Errors
///
/// `Memory` where an allocation fails.
pub fn fetch_and_read<R: Reader, F: Shelf>(
    alloc: Global,
    reader: &R,
    file: &String,
    shelf: &mut F,
) -> Result<FetchResult<R::Meaning>, Memory>
    requires { R.ready reader.now }
    ensures keeps_files { F.files_if_disclosed shelf.new ≡ F.files_if_disclosed shelf.old }
    ensures keeps_count { F.faults shelf.old ≤ F.faults shelf.new }
    ensures counted { F.fetches shelf.new ≡ one_more (F.fetches shelf.old) }
    ensures fault { IfOk result (λ given. F.faults shelf.old < F.faults shelf.new → IsFault given) }
    ensures gives { IfOk result (IsFetchResult (R.kind reader.now) (λ meaning. R.plain meaning)
        (shelf_use_of F.Shelf shelf.old shelf.new) (string_bytes file.now)) }
{
    match shelf.fetch(alloc, file.as_str(), reader.limit()) {
        Ok(bytes) => read_text(alloc, reader, &bytes),
        Err(FetchError::Failed) => Ok(FetchResult::Answer(status_with_text(
            alloc,
            Status::ReadFault,
            b"read fault\n",
        )?)),
        Err(FetchError::TooLong) => Ok(FetchResult::Answer(status_with_text(
            alloc,
            reader.refusal_status(),
            reader.too_long(),
        )?)),
        Err(FetchError::Memory) => Err(AllocError),
    }
}

// The result of reading a file with these bytes.
fn read_text<R: Reader>(
    alloc: Global,
    reader: &R,
    bytes: &[u8],
) -> Result<FetchResult<R::Meaning>, Memory>
    requires { R.ready reader.now }
    ensures { IfOk result (λ given. (seen : ShelfUse) (file : List ℕ)
        → Fetches seen file (R.kind reader.now).limit bytes.now
        → IsFetchResult (R.kind reader.now) (λ meaning. R.plain meaning) seen file given) }
{
    match reader.read(alloc, bytes)? {
        Read::Meaning(meaning) => Ok(FetchResult::Meaning(meaning)),
        Read::Refusal(text) => Ok(FetchResult::Answer(StatusText {
            status: reader.refusal_status(),
            text,
        })),
    }
}
