//! Why a piece can't be taken.

ghost use Rattle.std.specs.Prelude.{◌≡◌};
ghost use Rattle.bound_text.specs.declared.fault.Fault.TheVariants.{Memory};
ghost use Rattle.bound_text.specs.Verdicts.{error_at};

use crate::error::BoundTextError;
use std::alloc::{AllocError, AllocFailed};

/// A refusal without its position.
#[derive(Clone, Copy, Debug, PartialEq, Eq)]
pub enum Fault {
    Syntax,
    NumberTooLarge,
    UnknownName,
    TooDeep,
    TooLarge,
    Memory,
}

impl Fault {
    /// The error of this refusal at a position.
    pub fn at(self, at: u64) -> BoundTextError
        ensures { result ≡ error_at self at }
    {
        match self {
            Fault::Syntax => BoundTextError::Syntax { at },
            Fault::NumberTooLarge => BoundTextError::NumberTooLarge { at },
            Fault::UnknownName => BoundTextError::UnknownName { at },
            Fault::TooDeep => BoundTextError::TooDeep { at },
            Fault::TooLarge => BoundTextError::TooLarge { at },
            Fault::Memory => BoundTextError::Memory,
        }
    }
}

impl From<AllocError> for Fault {
    ghost from_gives = { λ _ e. e ≡ Memory };

    fn from(_error: AllocError) -> Fault {
        Fault::Memory
    }
}

impl<T: Drop> From<AllocFailed<T>> for Fault {
    ghost from_gives = { λ _ e. e ≡ Memory };

    fn from(_error: AllocFailed<T>) -> Fault {
        Fault::Memory
    }
}
