//! Why a step fails the test that it keeps leading on.

ghost use Rattle.std.specs.Prelude.{◌≡◌};
ghost use Rattle.affine_turns.specs.declared.stop.StopError.TheVariants.{Memory};

use std::alloc::{AllocError, AllocFailed};
use thiserror::Error;

/// Why a step fails the test that it keeps leading on as the values at its places change by the same amounts in each
/// turn.
#[derive(Debug, PartialEq, Eq, Drop, Error)]
pub enum StopError {
    /// The atom with this number, from 1, may cease to hold.
    #[error("atom {atom} isn't seen to go on to hold")]
    AtomStops { atom: u64 },
    /// The new value at this place, from 1, isn't found to change by the same amount in each turn.
    #[error("the value at place {place} isn't seen to change by the same amount in each turn")]
    NonlinearPlace { place: u64 },
    /// Memory ran out.
    #[error("out of memory")]
    Memory,
}

impl From<AllocError> for StopError {
    ghost from_gives = { λ _ e. e ≡ Memory };

    fn from(_error: AllocError) -> StopError {
        StopError::Memory
    }
}

impl<T: Drop> From<AllocFailed<T>> for StopError {
    ghost from_gives = { λ _ e. e ≡ Memory };

    fn from(_error: AllocFailed<T>) -> StopError {
        StopError::Memory
    }
}
