//! Why a while program is refused.

ghost use Rattle.std.specs.Prelude.{◌≡◌, Some};
ghost use Rattle.text_grammar.specs.Results.{refused_in};
ghost use Rattle.while_text.specs.declared.error.WhileError.TheVariants.{Memory};
ghost use Rattle.while_text.specs.Views.{refusal_in};

use crate::kind::{Kind, WhileKind};
use std::alloc::{AllocError, AllocFailed};
use text_grammar::Refusal;
use thiserror::Error;

/// Why no program was read. Positions count bytes from 0, and the text's length is the position of its end.
#[derive(Debug, PartialEq, Eq, Drop, Error)]
pub enum WhileError {
    /// The byte at this position is over 127.
    #[error("not ASCII at {at}")]
    NotAscii { at: u64 },
    /// The token at this position can't follow, or the text ends there too early.
    #[error("syntax at {at}")]
    Syntax { at: u64 },
    /// The number at this position is over 2^63-1, or the value or atom whose last byte is at this position has a form
    /// with such a coefficient.
    #[error("number too large at {at}")]
    NumberTooLarge { at: u64 },
    /// The name at this position is no input.
    #[error("unknown name at {at}")]
    UnknownName { at: u64 },
    /// The input at this position has the name of an earlier one.
    #[error("repeated name at {at}")]
    RepeatedName { at: u64 },
    /// The text exceeds a limit at this position.
    #[error("limit at {at}")]
    Limit { kind: WhileKind, at: u64 },
    /// Memory ran out.
    #[error("out of memory")]
    Memory,
}

impl From<AllocError> for WhileError {
    ghost from_gives = { λ _ e. e ≡ Memory };

    fn from(_error: AllocError) -> WhileError {
        WhileError::Memory
    }
}

impl<T: Drop> From<AllocFailed<T>> for WhileError {
    ghost from_gives = { λ _ e. e ≡ Memory };

    fn from(_error: AllocFailed<T>) -> WhileError {
        WhileError::Memory
    }
}

impl WhileError {
    /// The error for a refusal of this kind at this position.
    pub fn of(kind: Kind, at: u64) -> WhileError
        ensures { refusal_in result ≡ Some (record { kind = kind; at = at }) }
    {
        match kind {
            Kind::NotAscii => WhileError::NotAscii { at },
            Kind::Syntax => WhileError::Syntax { at },
            Kind::NumberTooLarge => WhileError::NumberTooLarge { at },
            Kind::UnknownName => WhileError::UnknownName { at },
            Kind::RepeatedName => WhileError::RepeatedName { at },
            Kind::Limit(kind) => WhileError::Limit { kind, at },
        }
    }
}

impl From<Refusal<Kind>> for WhileError {
    ghost from_gives = { λ refusal e. refusal_in e ≡ refused_in refusal };

    fn from(refusal: Refusal<Kind>) -> WhileError {
        match refusal {
            Refusal::Refuses(fault) => WhileError::of(fault.kind, fault.at),
            Refusal::Memory => WhileError::Memory,
        }
    }
}
