//! Why a proof file is refused.

ghost use Rattle.std.specs.Prelude.{◌≡◌, Some};
ghost use Rattle.text_grammar.specs.Results.{refused_in};
ghost use Rattle.cert_text.specs.declared.error.ProofTextError.TheVariants.{Memory};
ghost use Rattle.cert_text.specs.StatedErrors.{refusal_in};

use cert_lexer::ProofKind;
use std::alloc::{AllocError, AllocFailed};
use text_grammar::Refusal;
use thiserror::Error;

/// Why no proof file was read. Positions count bytes from 0, and the text's length is the position of its end.
#[derive(Debug, PartialEq, Eq, Drop, Error)]
pub enum ProofTextError {
    /// The token at this position can't follow, or the text ends here too early.
    #[error("syntax at {at}")]
    Syntax { at: u64 },
    /// The number at this position is over its limit.
    #[error("number too large at {at}")]
    NumberTooLarge { at: u64 },
    /// The node that begins at this position is at level 65, or the part of a bound at level 201.
    #[error("too deep at {at}")]
    TooDeep { at: u64 },
    /// The number or the name at this position is that of no rule, place, symbol, start argument or earlier lemma.
    #[error("bad reference at {at}")]
    BadReference { at: u64 },
    /// The line that begins at this position has one lemma or gap too many, or a bound has more than 4,096 nodes with
    /// the token at this position.
    #[error("limit at {at}")]
    Limit { at: u64 },
    /// Memory ran out.
    #[error("out of memory")]
    Memory,
}

impl From<AllocError> for ProofTextError {
    ghost from_gives = { λ _ e. e ≡ Memory };

    fn from(_error: AllocError) -> ProofTextError {
        ProofTextError::Memory
    }
}

impl<T: Drop> From<AllocFailed<T>> for ProofTextError {
    ghost from_gives = { λ _ e. e ≡ Memory };

    fn from(_error: AllocFailed<T>) -> ProofTextError {
        ProofTextError::Memory
    }
}

impl ProofTextError {
    /// The error of a refusal of a kind at a position.
    pub fn of(kind: ProofKind, at: u64) -> ProofTextError
        ensures { refusal_in result ≡ Some (record { kind = kind; at = at }) }
    {
        match kind {
            ProofKind::Syntax => ProofTextError::Syntax { at },
            ProofKind::NumberTooLarge => ProofTextError::NumberTooLarge { at },
            ProofKind::TooDeep => ProofTextError::TooDeep { at },
            ProofKind::BadReference => ProofTextError::BadReference { at },
            ProofKind::Limit => ProofTextError::Limit { at },
        }
    }
}

impl From<Refusal<ProofKind>> for ProofTextError {
    ghost from_gives = { λ refusal e. refusal_in e ≡ refused_in refusal };

    fn from(refusal: Refusal<ProofKind>) -> ProofTextError {
        match refusal {
            Refusal::Refuses(fault) => ProofTextError::of(fault.kind, fault.at),
            Refusal::Memory => ProofTextError::Memory,
        }
    }
}
