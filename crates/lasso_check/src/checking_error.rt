//! Why the turn of a lasso doesn't lead back.

ghost use Rattle.std.specs.Prelude.{◌≡◌, Some};
ghost use Rattle.its_model.specs.StepAnswers.{fault_of};
ghost use Rattle.lasso_check.specs.declared.checking_error.LassoError.TheVariants.{Memory};
ghost use Rattle.lasso_check.specs.Checks.{Bad};
ghost use Rattle.lasso_check.specs.CheckAnswers.{verdict_in};

use its_model::StepError;
use std::alloc::{AllocError, AllocFailed};
use thiserror::Error;

/// Why the turn of a lasso doesn't lead back: its first bad step, by its number from 1, counted through the stem and the
/// turn; or that the turn ends elsewhere.
#[derive(Debug, PartialEq, Eq, Drop, Error)]
pub enum LassoError {
    /// There is no such rule, it leaves another symbol, or it has another number of free variables.
    #[error("wrong rule at step {step}")]
    WrongRule { step: u64 },
    /// The atom with this number, from 1, doesn't hold.
    #[error("atom {atom} fails at step {step}")]
    GuardFails { step: u64, atom: u32 },
    /// A value exceeds 128 bits.
    #[error("a value passes 128 bits at step {step}")]
    PassedRange { step: u64 },
    /// All steps are good, and the turn leads from a configuration to another one: with another symbol if this is 0,
    /// else with another value first at this place, from 1.
    #[error("open at place {place}")]
    Open { place: u64 },
    /// Memory ran out.
    #[error("out of memory")]
    Memory,
}

impl From<AllocError> for LassoError {
    ghost from_gives = { λ _ e. e ≡ Memory };

    fn from(_error: AllocError) -> LassoError {
        LassoError::Memory
    }
}

impl<T: Drop> From<AllocFailed<T>> for LassoError {
    ghost from_gives = { λ _ e. e ≡ Memory };

    fn from(_error: AllocFailed<T>) -> LassoError {
        LassoError::Memory
    }
}

/// The error of the step with this number.
pub(crate) fn error_at(step: u64, error: StepError) -> LassoError
    ensures { verdict_in result ≡ Some (Bad (record { number = step; fault = fault_of error })) }
{
    match error {
        StepError::WrongRule => LassoError::WrongRule { step },
        StepError::GuardFails { atom } => LassoError::GuardFails { step, atom },
        StepError::PassedRange => LassoError::PassedRange { step },
    }
}
