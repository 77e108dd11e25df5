//! Why lines are refused.

ghost use Rattle.std.specs.Prelude.{◌≡◌, Some};
ghost use Rattle.text_grammar.specs.Results.{refused_in};
ghost use Rattle.potential_text.specs.declared.error.PotentialTextError.TheVariants.{Memory};
ghost use Rattle.potential_text.specs.Refusals.{refusal_in};

use crate::kind::LineKind;
use std::alloc::{AllocError, AllocFailed};
use text_grammar::Refusal;
use thiserror::Error;

/// Why no lines were read. Positions count bytes from 0, and the text's length is the position of its end.
#[derive(Debug, PartialEq, Eq, Drop, Error)]
pub enum PotentialTextError {
    /// The token at this position can't follow, or the text ends here too early.
    #[error("syntax at {at}")]
    Syntax { at: u64 },
    /// The number at this position is over its limit.
    #[error("number too large at {at}")]
    NumberTooLarge { at: u64 },
    /// The part of a bound that begins at this position is at level 201.
    #[error("too deep at {at}")]
    TooDeep { at: u64 },
    /// The name at this position is that of no symbol, or the number of a row or of a variable is 0.
    #[error("bad reference at {at}")]
    BadReference { at: u64 },
    /// The line that begins at this position is one too many, or with the token there a bound has more than 4,096 nodes.
    #[error("limit at {at}")]
    Limit { at: u64 },
    /// Memory ran out.
    #[error("out of memory")]
    Memory,
}

impl From<AllocError> for PotentialTextError {
    ghost from_gives = { λ _ e. e ≡ Memory };

    fn from(_error: AllocError) -> PotentialTextError {
        PotentialTextError::Memory
    }
}

impl<T: Drop> From<AllocFailed<T>> for PotentialTextError {
    ghost from_gives = { λ _ e. e ≡ Memory };

    fn from(_error: AllocFailed<T>) -> PotentialTextError {
        PotentialTextError::Memory
    }
}

impl PotentialTextError {
    /// The error of a refusal of a kind at a position.
    pub fn of(kind: LineKind, at: u64) -> PotentialTextError
        ensures { refusal_in result ≡ Some (record { kind = kind; at = at }) }
    {
        match kind {
            LineKind::Syntax => PotentialTextError::Syntax { at },
            LineKind::NumberTooLarge => PotentialTextError::NumberTooLarge { at },
            LineKind::TooDeep => PotentialTextError::TooDeep { at },
            LineKind::BadReference => PotentialTextError::BadReference { at },
            LineKind::Limit => PotentialTextError::Limit { at },
        }
    }
}

impl From<Refusal<LineKind>> for PotentialTextError {
    ghost from_gives = { λ refusal e. refusal_in e ≡ refused_in refusal };

    fn from(refusal: Refusal<LineKind>) -> PotentialTextError {
        match refusal {
            Refusal::Refuses(fault) => PotentialTextError::of(fault.kind, fault.at),
            Refusal::Memory => PotentialTextError::Memory,
        }
    }
}
