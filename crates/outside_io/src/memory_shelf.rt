//! A shelf in memory, which fails at chosen calls.

ghost use Rattle.std.specs.Prelude.{◌≡◌, ◌≤◌, ◌↔◌, ◌⊎◌, Some, IfOk, OnErr, IsErrOf, IsTrue, false, length};
ghost use Rattle.std.specs.Prelude.{if◌then◌else◌};
ghost use Rattle.outside_io.specs.Counts.{names_call};

use crate::memory_file::{MemoryFile, copy_of};
use crate::shelf::{FetchError, Shelf};
use std::alloc::Global;

/// A shelf in memory. It discloses all that it holds, and fails at the calls that it was set to fail at.
#[derive(Debug, Drop)]
pub struct MemoryShelf {
    files: Vec<MemoryFile>,
    failing: Vec<u64>,
    calls: u64,
    faults: u64,
    taken: u64,
}

impl MemoryShelf {
    ghost use Rattle.outside_io.specs.MemoryFiles.{files_of};
    ghost use Rattle.outside_io.specs.MemoryShelf.{held_files, failing_calls, fetch_count, fault_count, taken_count};

    /// A shelf of these files, of which nothing was fetched yet. Of several files of one name the
    /// first counts. The fetches that `failing` numbers fail; fetches are numbered from 1.
    pub fn new(files: Vec<MemoryFile>, failing: Vec<u64>) -> MemoryShelf
        ensures files { held_files result ≡ files_of files.items }
        ensures failing { failing_calls result ≡ failing.items }
        ensures no_calls { fetch_count result ≡ 0 }
        ensures no_faults { fault_count result ≡ 0 }
        ensures none_taken { taken_count result ≡ 0 }
    {
        MemoryShelf {
            files,
            failing,
            calls: 0,
            faults: 0,
            taken: 0,
        }
    }

    /// The number of fetches so far. It stays at the maximum of a `u64` once it has reached it.
    pub fn calls(&self) -> u64
        ensures { result ≡ fetch_count self.now }
    {
        self.calls
    }
}

impl Shelf for MemoryShelf {
    ghost use Rattle.outside_io.specs.Counts.{next_count, one_more};
    ghost use Rattle.outside_io.specs.Fetching.{IsTooLong, MayFail};
    ghost use Rattle.outside_io.specs.Files.{HoldsMore, HasBytesIfDisclosed, Lacks};
    ghost use Rattle.outside_io.specs.MemoryShelf.{held_files, failing_calls, fetch_count, fault_count, taken_count};
    ghost use Rattle.outside_io.specs.MemoryShelf.{fails_next};

    ghost files_if_disclosed = { λ shelf. Some (held_files shelf) };

    ghost taken = { taken_count };

    ghost fetches = { λ shelf. Some (fetch_count shelf) };

    ghost faults = { fault_count };

    /// As the trait says. The fetch counts as a call; it fails exactly where its number is one of the
    /// failing calls or no file has the name, and is too long exactly where else the file has more
    /// bytes than `limit`. A failing call raises the count of faults by one, and nothing else does.
    fn fetch(&mut self, alloc: Global, name: &str, limit: u64) -> Result<Vec<u8>, FetchError>
        ensures keeps_files { held_files self.new ≡ held_files self.old }
        ensures keeps_failing { failing_calls self.new ≡ failing_calls self.old }
        ensures keeps_count { fault_count self.old ≤ fault_count self.new }

        ensures counted { Some (fetch_count self.new) ≡ one_more (Some (fetch_count self.old)) }
        ensures calls { fetch_count self.new ≡ next_count (fetch_count self.old) }
        ensures faults { fault_count self.new
            ≡ (if fails_next self.old then next_count (fault_count self.old) else fault_count self.old) }

        ensures counts_failed { ¬ (IsErrOf result FetchError.Failed)
            → fault_count self.new ≡ fault_count self.old }

        ensures ok { IfOk result (λ file. HasBytesIfDisclosed (Some (held_files self.old)) name.now file.items) }
        ensures within { IfOk result (λ file. length file.items ≤ limit) }
        ensures takes { IfOk result (λ file. taken_count self.new ≡ length file.items) }
        ensures takes_none { OnErr result (taken_count self.new ≡ 0) }

        // A failing call fails; any other fails exactly where the shelf lacks the name.
        ensures failing { IsTrue (fails_next self.old) → IsErrOf result FetchError.Failed }
        ensures lacks { fails_next self.old ≡ false
            → (IsErrOf result FetchError.Failed ↔ Lacks (Some (held_files self.old)) name.now) }
        ensures failed { IsErrOf result FetchError.Failed
            → MayFail (Some (held_files self.old)) name.now (fault_count self.old) (fault_count self.new) }
        ensures lacking { Lacks (Some (held_files self.old)) name.now
            → (IsErrOf result FetchError.Failed ⊎ IsErrOf result FetchError.Memory) }

        // A call that isn't set to fail finds a file too long exactly if it has more bytes than the limit.
        ensures exceeds { fails_next self.old ≡ false
            → (IsErrOf result FetchError.TooLong ↔ HoldsMore (held_files self.old) name.now limit) }
        ensures too_long { IsErrOf result FetchError.TooLong
            → IsTooLong (Some (held_files self.old)) name.now limit (taken_count self.new) }
    {
        self.calls = self.calls.saturating_add(1);
        self.taken = 0;
        if is_failing(&self.failing, self.calls) {
            self.faults = self.faults.saturating_add(1);
            return Err(FetchError::Failed);
        }
        let file = copy_of(&self.files, alloc, name, limit)?;
        self.taken = file.len() as u64;
        Ok(file)
    }
}

// Whether the call is one of those that fail.
#[tactic(auto, unfolding(crate::specs::Counts::names_call))]
fn is_failing(failing: &[u64], call: u64) -> bool
    ensures { result ≡ names_call failing.now call }
{
    failing.contains(&call)
}
