//! A shelf and a sink that never have a fault.

ghost use Rattle.std.specs.Prelude.{◌≡◌, ◌≤◌, ◌↔◌, ◌⊎◌, ℕ, None, Some, IfOk, IsErrOf, IsOk, IsSome, OnOk, OnErr};
ghost use Rattle.std.specs.Prelude.{length};
ghost use Rattle.outside_io.specs.Counts.{Rose, one_more};

use crate::memory_file::{MemoryFile, copy_of};
use crate::shelf::{FetchError, Shelf};
use crate::sink::{PutFailed, Sink};
use std::alloc::Global;

/// A shelf in memory without faults. It discloses all that it holds, and its count of faults is 0.
#[derive(Debug, Drop)]
pub struct SteadyShelf {
    files: Vec<MemoryFile>,
    calls: u64,
    taken: u64,
}

/// A sink that takes and discards every piece. It discloses neither what was written nor how often it was asked to, and
/// its count of faults is 0.
#[derive(Clone, Copy, Debug, PartialEq, Eq, Hash)]
pub struct SteadySink;

impl SteadyShelf {
    ghost use Rattle.outside_io.specs.MemoryFiles.{files_of};
    ghost use Rattle.outside_io.specs.SteadyShelf.{held_files, fetch_count, taken_count};

    /// A shelf of these files. Of several files of one name the first counts.
    pub fn new(files: Vec<MemoryFile>) -> SteadyShelf
        ensures files { held_files result ≡ files_of files.items }
        ensures no_calls { fetch_count result ≡ 0 }
        ensures none_taken { taken_count result ≡ 0 }
    {
        SteadyShelf {
            files,
            calls: 0,
            taken: 0,
        }
    }
}

impl Shelf for SteadyShelf {
    ghost use Rattle.outside_io.specs.Fetching.{IsTooLong, MayFail};
    ghost use Rattle.outside_io.specs.Files.{HoldsMore, HasBytesIfDisclosed, Lacks};
    ghost use Rattle.outside_io.specs.SteadyShelf.{held_files, fetch_count, taken_count};

    ghost files_if_disclosed = { λ shelf. Some (held_files shelf) };

    ghost taken = { taken_count };

    ghost fetches = { λ shelf. Some (fetch_count shelf) };

    ghost faults = { λ _. 0 };

    /// As the trait says. It fails exactly where no file has the name, and is too long exactly where
    /// the file has more bytes than `limit`.
    fn fetch(&mut self, alloc: Global, name: &str, limit: u64) -> Result<Vec<u8>, FetchError>
        ensures keeps_files { held_files self.new ≡ held_files self.old }
        ensures counted { Some (fetch_count self.new) ≡ one_more (Some (fetch_count self.old)) }
        ensures ok { IfOk result (λ file. HasBytesIfDisclosed (Some (held_files self.old)) name.now file.items) }
        ensures within { IfOk result (λ file. length file.items ≤ limit) }
        ensures takes { IfOk result (λ file. taken_count self.new ≡ length file.items) }
        ensures takes_none { OnErr result (taken_count self.new ≡ 0) }
        ensures failed { IsErrOf result FetchError.Failed ↔ Lacks (Some (held_files self.old)) name.now }
        ensures exceeds { IsErrOf result FetchError.TooLong ↔ HoldsMore (held_files self.old) name.now limit }
        ensures too_long { IsErrOf result FetchError.TooLong
            → IsTooLong (Some (held_files self.old)) name.now limit (taken_count self.new) }
        ensures lacking { Lacks (Some (held_files self.old)) name.now
            → (IsErrOf result FetchError.Failed ⊎ IsErrOf result FetchError.Memory) }
    {
        self.calls = self.calls.saturating_add(1);
        self.taken = 0;
        let file = copy_of(&self.files, alloc, name, limit)?;
        self.taken = file.len() as u64;
        Ok(file)
    }
}

impl Sink for SteadySink {
    ghost written = { λ _. None };

    ghost puts = { λ _. None };

    ghost faults = { λ _. 0 };

    /// Discards the piece. It never fails.
    fn put(&mut self, _piece: &[u8]) -> Result<(), PutFailed>
        ensures { IsOk result }
    {
        Ok(())
    }
}

/// The counts of faults of a steady shelf and of a steady sink never rise. So code that is generic over a shelf and a
/// sink never passes on `PutFailed` from a steady sink, and passes on `Failed` from a steady shelf only where the shelf
/// lacks the name.
pub fn steady_counts_never_rise()
    ensures shelf { (before after : SteadyShelf)
        → ¬ (Rose (⟦<SteadyShelf as Shelf>⟧.faults before) (⟦<SteadyShelf as Shelf>⟧.faults after)) }
    ensures sink { (before after : SteadySink)
        → ¬ (Rose (⟦<SteadySink as Sink>⟧.faults before) (⟦<SteadySink as Sink>⟧.faults after)) }
{}
