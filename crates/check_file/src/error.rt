//! Why a file isn't accepted.

ghost use Rattle.std.specs.Prelude.{◌≡◌};
ghost use Rattle.check_file.specs.declared.error.CheckError.TheVariants.{Memory};

use cert_types::{GapFault, Reason};
use std::alloc::{AllocError, AllocFailed};

/// Why a proof file isn't accepted.
#[derive(Clone, Copy, Debug, PartialEq, Eq)]
pub enum CheckError {
    /// The first node that isn't accepted, by its number in its lemma, and the first reason. Lemmas and nodes are
    /// counted from 1, each node after its premises.
    No {
        lemma: u32,
        node: u32,
        reason: Reason,
    },
    /// All lemmas are accepted; this is the first gap that doesn't hold, with its first fault. Gaps are counted from 1.
    NoGap {
        gap: u32,
        fault: GapFault,
    },
    /// Memory ran out.
    Memory,
}

impl From<AllocError> for CheckError {
    ghost from_gives = { λ _ e. e ≡ Memory };

    fn from(_error: AllocError) -> CheckError {
        CheckError::Memory
    }
}

impl<T: Drop> From<AllocFailed<T>> for CheckError {
    ghost from_gives = { λ _ e. e ≡ Memory };

    fn from(_error: AllocFailed<T>) -> CheckError {
        CheckError::Memory
    }
}
