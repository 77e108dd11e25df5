//! Why the text of a linear program is refused.

ghost use Rattle.std.specs.Prelude.{◌≡◌};
ghost use Rattle.text_grammar.specs.Results.{refused_in};
ghost use Rattle.lp_text.specs.Views.{refusal_in};

use crate::kind::LpKind;
use text_grammar::Refusal;
use thiserror::Error;

/// Why no linear program was read. Positions count bytes from 0, and the text's length is the position of its end.
#[derive(Debug, PartialEq, Eq, Drop, Error)]
pub enum LpTextError {
    /// The byte at this position can't follow, or the text ends here too early.
    #[error("syntax at {at}")]
    Syntax { at: u64 },
    /// The number that begins at this position is over 2^31-1 in absolute value.
    #[error("number too large at {at}")]
    NumberTooLarge { at: u64 },
    /// The number of columns at this position isn't from 1 to 64, or the 65th row begins here.
    #[error("limit at {at}")]
    Limit { at: u64 },
    /// Memory ran out.
    #[error("out of memory")]
    Memory,
}

impl From<Refusal<LpKind>> for LpTextError {
    ghost from_gives = { λ refusal e. refusal_in e ≡ refused_in refusal };

    fn from(refusal: Refusal<LpKind>) -> LpTextError {
        let fault = match refusal {
            Refusal::Refuses(fault) => fault,
            Refusal::Memory => return LpTextError::Memory,
        };
        let at = fault.at;
        match fault.kind {
            LpKind::Syntax => LpTextError::Syntax { at },
            LpKind::NumberTooLarge => LpTextError::NumberTooLarge { at },
            LpKind::Limit => LpTextError::Limit { at },
        }
    }
}
