//! Why a section is refused.

ghost use Rattle.std.specs.Prelude.{◌≡◌, Some};
ghost use Rattle.text_grammar.specs.Results.{refused_in};
ghost use Rattle.section_text.specs.declared.error.SectionTextError.TheVariants.{Memory};
ghost use Rattle.section_text.specs.Refusals.{refusal_in};

use crate::kind::SectionKind;
use std::alloc::{AllocError, AllocFailed};
use text_grammar::Refusal;
use thiserror::Error;

/// Why no section was read. Positions count bytes from 0, and the text's length is the position of its end.
#[derive(Debug, PartialEq, Eq, Drop, Error)]
pub enum SectionTextError {
    /// The token at this position can't follow, or the text ends here too early.
    #[error("syntax at {at}")]
    Syntax { at: u64 },
    /// The number at this position is over 2^56.
    #[error("number too large at {at}")]
    NumberTooLarge { at: u64 },
    /// The cases that begin at this position are at level 65.
    #[error("too deep at {at}")]
    TooDeep { at: u64 },
    /// The name or the number at this position is that of no symbol, copy or rule; or the name of a new copy is that of
    /// an earlier one.
    #[error("bad reference at {at}")]
    BadReference { at: u64 },
    /// The line that begins at this position has one copy or branch too many, or the name of the copy at this position
    /// has more than 256 bytes.
    #[error("limit at {at}")]
    Limit { at: u64 },
    /// Memory ran out.
    #[error("out of memory")]
    Memory,
}

impl From<AllocError> for SectionTextError {
    ghost from_gives = { λ _ e. e ≡ Memory };

    fn from(_error: AllocError) -> SectionTextError {
        SectionTextError::Memory
    }
}

impl<T: Drop> From<AllocFailed<T>> for SectionTextError {
    ghost from_gives = { λ _ e. e ≡ Memory };

    fn from(_error: AllocFailed<T>) -> SectionTextError {
        SectionTextError::Memory
    }
}

impl SectionTextError {
    /// The error of a refusal of a kind at a position.
    pub fn of(kind: SectionKind, at: u64) -> SectionTextError
        ensures { refusal_in result ≡ Some (record { kind = kind; at = at }) }
    {
        match kind {
            SectionKind::Syntax => SectionTextError::Syntax { at },
            SectionKind::NumberTooLarge => SectionTextError::NumberTooLarge { at },
            SectionKind::TooDeep => SectionTextError::TooDeep { at },
            SectionKind::BadReference => SectionTextError::BadReference { at },
            SectionKind::Limit => SectionTextError::Limit { at },
        }
    }
}

impl From<Refusal<SectionKind>> for SectionTextError {
    ghost from_gives = { λ refusal e. refusal_in e ≡ refused_in refusal };

    fn from(refusal: Refusal<SectionKind>) -> SectionTextError {
        match refusal {
            Refusal::Refuses(fault) => SectionTextError::of(fault.kind, fault.at),
            Refusal::Memory => SectionTextError::Memory,
        }
    }
}
