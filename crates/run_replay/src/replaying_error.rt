//! Why the steps of a run file are no run.

ghost use Rattle.std.specs.Prelude.{◌≡◌, Some};
ghost use Rattle.its_model.specs.StepAnswers.{fault_of};
ghost use Rattle.run_replay.specs.declared.replaying_error.ReplayError.TheVariants.{Memory};
ghost use Rattle.run_replay.specs.ReplayAnswers.{bad_step_of};

use its_model::StepError;
use std::alloc::{AllocError, AllocFailed};
use thiserror::Error;

/// Why a run isn't replayed: its first bad step, with its number from 1.
#[derive(Debug, PartialEq, Eq, Drop, Error)]
pub enum ReplayError {
    /// There is no such rule, its source is another symbol, or it has another number of free variables.
    #[error("wrong rule at step {step}")]
    WrongRule { step: u64 },
    /// The atom with this number, from 1, doesn't hold.
    #[error("atom {atom} fails at step {step}")]
    GuardFails { step: u64, atom: u32 },
    /// A value exceeds 128 bits.
    #[error("a value passes 128 bits at step {step}")]
    PassedRange { step: u64 },
    /// Memory ran out.
    #[error("out of memory")]
    Memory,
}

impl From<AllocError> for ReplayError {
    ghost from_gives = { λ _ e. e ≡ Memory };

    fn from(_error: AllocError) -> ReplayError {
        ReplayError::Memory
    }
}

impl<T: Drop> From<AllocFailed<T>> for ReplayError {
    ghost from_gives = { λ _ e. e ≡ Memory };

    fn from(_error: AllocFailed<T>) -> ReplayError {
        ReplayError::Memory
    }
}

/// The error of the step with a number.
pub(crate) fn error_at(step: u64, error: StepError) -> ReplayError
    ensures { bad_step_of result ≡ Some (record { number = step; fault = fault_of error }) }
{
    match error {
        StepError::WrongRule => ReplayError::WrongRule { step },
        StepError::GuardFails { atom } => ReplayError::GuardFails { step, atom },
        StepError::PassedRange => ReplayError::PassedRange { step },
    }
}
