//! The system's files and its standard input, as a shelf. Their contents are trusted to the operating system.

ghost use Rattle.std.specs.Prelude.{◌≡◌, ◌≤◌, ◌<◌, ◌+◌, None, Some, IfOk, IsErrOf, length};

use crate::reading::read_to_end;
use crate::shelf::{FetchError, Shelf};
use std::alloc::Global;
use std::fs;
use std::io::Input;
use std::rt::Files;

/// The files of the operating system, by their paths; the name `-` is standard input. This shelf doesn't disclose its
/// contents.
#[derive(Debug, Drop)]
pub struct FileShelf<R> {
    runtime: R,
    calls: u64,
    faults: u64,
    taken: u64,
}

impl<R: Files + Input> FileShelf<R> {
    ghost use Rattle.outside_io.specs.FileShelf.{fetch_count, fault_count, taken_count};

    /// The shelf of the runtime's files; `main` gives it a reference to its own runtime.
    pub fn new(runtime: R) -> FileShelf<R>
        ensures no_calls { fetch_count result ≡ 0 }
        ensures no_faults { fault_count result ≡ 0 }
        ensures none_taken { taken_count result ≡ 0 }
    {
        FileShelf {
            runtime,
            calls: 0,
            faults: 0,
            taken: 0,
        }
    }
}

impl<R: Files + Input> Shelf for FileShelf<R> {
    ghost use Rattle.outside_io.specs.Counts.{next_count, one_more};
    ghost use Rattle.outside_io.specs.FileShelf.{fetch_count, fault_count, taken_count};

    ghost files_if_disclosed = { λ _. None };

    ghost taken = { taken_count };

    ghost fetches = { λ shelf. Some (fetch_count shelf) };

    ghost faults = { fault_count };

    /// As the trait says. It reads at most `limit + 1` bytes, and fails if the system refuses to open or to read the
    /// file.
    fn fetch(&mut self, alloc: Global, name: &str, limit: u64) -> Result<Vec<u8>, FetchError>
        ensures counted { Some (fetch_count self.new) ≡ one_more (Some (fetch_count self.old)) }
        ensures keeps_count { fault_count self.old ≤ fault_count self.new }
        ensures within { IfOk result (λ file. length file.items ≤ limit) }
        ensures takes { IfOk result (λ file. taken_count self.new ≡ length file.items) }
        ensures bounded { taken_count self.new ≤ limit + 1 }
        ensures failed { IsErrOf result FetchError.Failed
            → fault_count self.new ≡ next_count (fault_count self.old) }
        ensures counts_failed { ¬ (IsErrOf result FetchError.Failed)
            → fault_count self.new ≡ fault_count self.old }
        ensures too_long { IsErrOf result FetchError.TooLong → limit < taken_count self.new }
    {
        self.calls = self.calls.saturating_add(1);
        let fetched = read_named(&self.runtime, alloc, name, limit, &mut self.taken);
        if let Err(FetchError::Failed) = fetched {
            self.faults = self.faults.saturating_add(1);
        }
        fetched
    }
}

// All bytes of the file of this name, if there are at most `limit`. `taken` is how many were taken.
fn read_named<R: Files + Input>(
    runtime: &R,
    alloc: Global,
    name: &str,
    limit: u64,
    taken: &mut u64,
) -> Result<Vec<u8>, FetchError>
    ensures within { IfOk result (λ file. length file.items ≤ limit) }
    ensures takes { IfOk result (λ file. taken.new ≡ length file.items) }
    ensures bounded { taken.new ≤ limit + 1 }
    ensures too_long { IsErrOf result FetchError.TooLong → limit < taken.new }
{
    *taken = 0;
    if name == "-" {
        return read_to_end(&mut runtime.reader(), alloc, limit, taken);
    }
    match fs::open(runtime, name) {
        Ok(mut file) => read_to_end(&mut file, alloc, limit, taken),
        Err(_) => Err(FetchError::Failed),
    }
}
