//! Why a text is refused.

ghost use Rattle.std.specs.Prelude.{◌≡◌};
ghost use Rattle.bound_text.specs.declared.error.BoundTextError.TheVariants.{Memory};

use std::alloc::{AllocError, AllocFailed};
use thiserror::Error;

/// Why no bound was read. Positions count bytes from 0, and the text's length is the position of its end.
#[derive(Debug, PartialEq, Eq, Drop, Error)]
pub enum BoundTextError {
    /// The token at this position can't follow, or is the number of a base under 2, or the text ends here too early.
    #[error("syntax at {at}")]
    Syntax { at: u64 },
    /// The number at this position is over 2^127-1, or a base over 2^64-1.
    #[error("number too large at {at}")]
    NumberTooLarge { at: u64 },
    /// The name at this position isn't listed.
    #[error("unknown name at {at}")]
    UnknownName { at: u64 },
    /// With the token at this position there are more than 200 levels.
    #[error("too deep at {at}")]
    TooDeep { at: u64 },
    /// With the token at this position there are more than 4,096 nodes.
    #[error("too large at {at}")]
    TooLarge { at: u64 },
    /// Memory ran out.
    #[error("out of memory")]
    Memory,
}

impl From<AllocError> for BoundTextError {
    ghost from_gives = { λ _ e. e ≡ Memory };

    fn from(_error: AllocError) -> BoundTextError {
        BoundTextError::Memory
    }
}

impl<T: Drop> From<AllocFailed<T>> for BoundTextError {
    ghost from_gives = { λ _ e. e ≡ Memory };

    fn from(_error: AllocFailed<T>) -> BoundTextError {
        BoundTextError::Memory
    }
}
