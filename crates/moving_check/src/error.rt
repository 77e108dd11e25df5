//! Why the turn of a lasso isn't shown to move on.

ghost use Rattle.std.specs.Prelude.{◌≡◌, Some, None};
ghost use Rattle.lasso_check.specs.CheckAnswers.{RefusesStep};
ghost use Rattle.lasso_check.specs.Lassos.{Lasso};
ghost use Rattle.its_model.specs.model.Programs.{Program};
ghost use Rattle.affine_turns.specs.Stops.{stop_in};
ghost use Rattle.affine_turns.specs.Turns.{Stop};
ghost use Rattle.moving_check.specs.declared.error.MovingError.TheVariants.{Memory};
ghost use Rattle.moving_check.specs.Findings.{Found, StopsAt};
ghost use Rattle.moving_check.specs.Answers.{IsOfStep, Refuses, SaysOnly};

use affine_turns::StopError;
use lasso_check::LassoError;
use std::alloc::{AllocError, AllocFailed};
use thiserror::Error;

/// Why the turn of a lasso isn't shown to move on: its first bad step, by its number from 1, counted through the stem
/// and the turn; or why a turn whose steps are good fails the test of moving on.
#[derive(Debug, PartialEq, Eq, Drop, Error)]
pub enum MovingError {
    /// There is no such rule, it leaves another symbol, or it has another number of free variables.
    #[error("wrong rule at step {step}")]
    WrongRule { step: u64 },
    /// The atom with this number, from 1, doesn't hold.
    #[error("atom {atom} fails at step {step}")]
    GuardFails { step: u64, atom: u32 },
    /// A value exceeds 128 bits.
    #[error("a value passes 128 bits at step {step}")]
    PassedRange { step: u64 },
    /// All steps are good, and the turn leads to another symbol than the one at which it begins.
    #[error("another symbol behind the turn")]
    OtherSymbol,
    /// The turn leads to the same symbol, and this is the first place, from 1, at which the difference of the values
    /// before and after it exceeds 128 bits.
    #[error("the difference at place {place} passes 128 bits")]
    DifferencePasses { place: u64 },
    /// This step of the turn is the first one that fails the test as the values change by these differences each time,
    /// and this is its first atom, from 1, that may cease to hold.
    #[error("atom {atom} isn't seen to go on to hold at step {step}")]
    AtomStops { step: u64, atom: u64 },
    /// This step of the turn is the first one that fails the test; all its atoms keep holding, and this is its first
    /// place, from 1, whose new value isn't found to change by the same amount each time.
    #[error("the value at place {place} isn't seen to change by the same amount each time behind step {step}")]
    NonlinearPlace { step: u64, place: u64 },
    /// All steps of the turn pass the test, and this is the first place, from 1, whose value changes by another amount
    /// after the turn than before it.
    #[error("the value at place {place} changes by another amount behind the turn")]
    DifferenceChanges { place: u64 },
    /// Memory ran out.
    #[error("out of memory")]
    Memory,
}

impl From<AllocError> for MovingError {
    ghost from_gives = { λ _ e. e ≡ Memory };

    fn from(_error: AllocError) -> MovingError {
        MovingError::Memory
    }
}

impl<T: Drop> From<AllocFailed<T>> for MovingError {
    ghost from_gives = { λ _ e. e ≡ Memory };

    fn from(_error: AllocFailed<T>) -> MovingError {
        MovingError::Memory
    }
}

/// The error of a bad step.
pub(crate) fn bad_step(error: LassoError) -> MovingError
    requires { IsOfStep error }
    ensures { (p : Program) (l : Lasso) → RefusesStep p l error → Refuses p l result }
{
    match error {
        LassoError::WrongRule { step } => MovingError::WrongRule { step },
        LassoError::GuardFails { step, atom } => MovingError::GuardFails { step, atom },
        LassoError::PassedRange { step } => MovingError::PassedRange { step },
        LassoError::Open { .. } => unreachable!(),
        LassoError::Memory => MovingError::Memory,
    }
}

/// The error of the step with this number, which fails the test.
pub(crate) fn stopped_at(step: u64, error: StopError) -> MovingError
    ensures stop { (stop : Stop) → stop_in error ≡ Some stop
        → SaysOnly (Found (StopsAt (record { number = step; stop = stop }))) result }
    ensures memory { stop_in error ≡ None → result ≡ Memory }
{
    match error {
        StopError::AtomStops { atom } => MovingError::AtomStops { step, atom },
        StopError::NonlinearPlace { place } => MovingError::NonlinearPlace { step, place },
        StopError::Memory => MovingError::Memory,
    }
}
