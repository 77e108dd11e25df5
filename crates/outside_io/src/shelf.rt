//! The shelf: files that are fetched by name.

ghost use Rattle.std.specs.Prelude.{◌≡◌, ℕ, ◌≤◌, List, Option, IfOk, IsErrOf, ◌⊎◌, length};
ghost use Rattle.outside_io.specs.Counts.{one_more};
ghost use Rattle.outside_io.specs.Fetching.{IsTooLong, MayFail};
ghost use Rattle.outside_io.specs.Files.{Files, HasBytesIfDisclosed, Lacks};
ghost use Rattle.outside_io.specs.declared.shelf.FetchError.TheVariants.{Memory};

use std::alloc::{AllocError, Global};

/// Why a fetch gave no bytes.
#[derive(Clone, Copy, Debug, PartialEq, Eq, Hash)]
pub enum FetchError {
    /// The shelf couldn't give the file: a fault, or no file of this name.
    Failed,
    /// The file has more bytes than the limit.
    TooLong,
    /// Memory ran out.
    Memory,
}

impl From<AllocError> for FetchError {
    ghost from_gives = { λ _ e. e ≡ Memory };

    fn from(_error: AllocError) -> FetchError {
        FetchError::Memory
    }
}

/// A store from which files are fetched by name.
///
/// Its meanings are `files_if_disclosed`, its contents, if it discloses them; `taken`, how many bytes the last fetch
/// read; `fetches`, how many fetches were asked for, if it discloses that; and `faults`, a count of faults. Both counts
/// are kept in a `u64` and stay at its maximum.
pub trait Shelf {
    ghost files_if_disclosed: { Self → Option Files };

    ghost taken: { Self → ℕ };

    ghost fetches: { Self → Option ℕ };

    ghost faults: { Self → ℕ };

    /// The bytes of the file of this name, which may be at most `limit`.
    ///
    /// Each call counts as one fetch, whatever its result.
    ///
    /// Errors: `Failed`, only where `faults` rose in this call or the shelf discloses its contents and lacks the name;
    /// `TooLong`, only where the file has more bytes than `limit`; `Memory`. The shelf's contents never change,
    /// whatever the result. The count of faults rises with `Failed` alone: with `Ok`, `TooLong` and `Memory` it is
    /// unchanged.
    fn fetch(&mut self, alloc: Global, name: &str, limit: u64) -> Result<Vec<u8>, FetchError>
        ensures keeps_files { files_if_disclosed self.new ≡ files_if_disclosed self.old }
        ensures counted { fetches self.new ≡ one_more (fetches self.old) }
        ensures keeps_count { faults self.old ≤ faults self.new }
        ensures counts_failed { ¬ (IsErrOf result FetchError.Failed) → faults self.new ≡ faults self.old }

        ensures ok { IfOk result (λ file. HasBytesIfDisclosed (files_if_disclosed self.old) name.now file.items) }
        ensures within { IfOk result (λ file. length file.items ≤ limit) }
        ensures takes { IfOk result (λ file. taken self.new ≡ length file.items) }

        ensures failed { IsErrOf result FetchError.Failed
            → MayFail (files_if_disclosed self.old) name.now (faults self.old) (faults self.new) }
        ensures too_long { IsErrOf result FetchError.TooLong
            → IsTooLong (files_if_disclosed self.old) name.now limit (taken self.new) }

        // A name that the shelf is known to lack never gets `Ok` or `TooLong`.
        ensures lacking { Lacks (files_if_disclosed self.old) name.now
            → (IsErrOf result FetchError.Failed ⊎ IsErrOf result FetchError.Memory) };
}
