//! Why a run file is refused.

ghost use Rattle.std.specs.Prelude.{◌≡◌};
ghost use Rattle.text_grammar.specs.Results.{refused_in};
ghost use Rattle.run_replay.specs.Views.{refusal_in};

use crate::kind::RunKind;
use text_grammar::Refusal;
use thiserror::Error;

/// Why a run file is refused. Positions count bytes from 0, and the text's length is the position of its end.
#[derive(Debug, PartialEq, Eq, Drop, Error)]
pub enum RunTextError {
    /// The byte at this position can't follow here, or the text ends too early.
    #[error("syntax at {at}")]
    Syntax { at: u64 },
    /// The value that begins at this position exceeds 2^63-1 in absolute value.
    #[error("number too large at {at}")]
    NumberTooLarge { at: u64 },
    /// No rule has the number at this position.
    #[error("bad reference at {at}")]
    BadReference { at: u64 },
    /// The line that ends at this position has a wrong number of values.
    #[error("arity differs at {at}")]
    ArityDiffers { at: u64 },
    /// A line after 1,000,000 steps begins at this position with `s`, as the line of a step does.
    #[error("limit at {at}")]
    Limit { at: u64 },
    /// Memory ran out.
    #[error("out of memory")]
    Memory,
}

impl From<Refusal<RunKind>> for RunTextError {
    ghost from_gives = { λ refusal e. refusal_in e ≡ refused_in refusal };

    fn from(refusal: Refusal<RunKind>) -> RunTextError {
        let fault = match refusal {
            Refusal::Refuses(fault) => fault,
            Refusal::Memory => return RunTextError::Memory,
        };
        let at = fault.at;
        match fault.kind {
            RunKind::Syntax => RunTextError::Syntax { at },
            RunKind::NumberTooLarge => RunTextError::NumberTooLarge { at },
            RunKind::BadReference => RunTextError::BadReference { at },
            RunKind::ArityDiffers => RunTextError::ArityDiffers { at },
            RunKind::Limit => RunTextError::Limit { at },
        }
    }
}
