//! Why claims are refused.

ghost use Rattle.std.specs.Prelude.{◌≡◌};
ghost use Rattle.claims_check.specs.declared.reason.ClaimFault.TheVariants as faults;
ghost use Rattle.claims_check.specs.declared.reason.ClaimsError.TheVariants as errors;

use std::alloc::{AllocError, AllocFailed};

/// Why a claim isn't accepted.
#[derive(Clone, Copy, Debug, PartialEq, Eq)]
pub enum ClaimReason {
    /// The program has no rule with this number.
    NoRule,
    /// The rule has no written cost.
    NoCost,
    /// The target of the rule has no place with this number.
    NoPlace,
    /// The symbol has no copy.
    NoCopy,
    /// A copy of the symbol has no fact that says so.
    NoFact,
    /// A fact that is cited isn't there or says something else, or facts are too few or too many.
    BadLemma,
    /// The stated bound may be too low.
    LowBound,
}

/// A claim that isn't accepted, by its number, from 1 on, and why.
#[derive(Clone, Copy, Debug, PartialEq, Eq)]
pub struct RefusedClaim {
    pub claim: usize,
    pub reason: ClaimReason,
}

/// Why a list of claims isn't accepted.
#[derive(Clone, Copy, Debug, PartialEq, Eq)]
pub enum ClaimsError {
    /// The first claim that isn't accepted.
    Refused(RefusedClaim),
    /// Memory ran out.
    Memory,
}

impl From<AllocError> for ClaimsError {
    ghost from_gives = { λ _ e. e ≡ errors.Memory };

    fn from(_error: AllocError) -> ClaimsError {
        ClaimsError::Memory
    }
}

impl<T: Drop> From<AllocFailed<T>> for ClaimsError {
    ghost from_gives = { λ _ e. e ≡ errors.Memory };

    fn from(_error: AllocFailed<T>) -> ClaimsError {
        ClaimsError::Memory
    }
}

/// Why one claim isn't accepted.
#[derive(Clone, Copy)]
pub(crate) enum ClaimFault {
    /// For this reason.
    Refused(ClaimReason),
    /// Memory ran out.
    Memory,
}

impl From<AllocError> for ClaimFault {
    ghost from_gives = { λ _ e. e ≡ faults.Memory };

    fn from(_error: AllocError) -> ClaimFault {
        ClaimFault::Memory
    }
}

impl<T: Drop> From<AllocFailed<T>> for ClaimFault {
    ghost from_gives = { λ _ e. e ≡ faults.Memory };

    fn from(_error: AllocFailed<T>) -> ClaimFault {
        ClaimFault::Memory
    }
}
