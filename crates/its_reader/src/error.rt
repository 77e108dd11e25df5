//! Why a text is refused.

ghost use Rattle.std.specs.Prelude.{◌≡◌};
ghost use Rattle.its_reader.specs.declared.error.ReadError.TheVariants.{Memory};

use std::alloc::{AllocError, AllocFailed};
use thiserror::Error;

/// The limit that is exceeded.
#[derive(Clone, Copy, Debug, PartialEq, Eq)]
pub enum LimitKind {
    /// More than 1,000 rules.
    Rules,
    /// More than 32 arguments.
    Arity,
    /// More than 64 variables in a rule.
    Variables,
    /// More than 64 atoms in a guard; a cost counts as one.
    Atoms,
    /// A name of more than 256 bytes.
    Name,
    /// An expression of more than 1,024 tokens.
    Tokens,
    /// An expression that expands to more than 64 monomials.
    Terms,
    /// An expression of a degree over 8.
    Degree,
}

/// Why no program was read.
#[derive(Debug, PartialEq, Eq, Drop, Error)]
pub enum ReadError {
    /// A byte over 127 outside comments. The position is that of the byte.
    #[error("not ascii at {at}")]
    NotAscii { at: u64 },
    /// A token that can't follow, or bytes that are no token. The position is that of the first byte; if the text ends
    /// too early, it is the text's length.
    #[error("syntax at {at}")]
    Syntax { at: u64 },
    /// There is no STARTTERM or no RULES, and the text has no other fault. Its position is the text's length.
    #[error("missing section at {at}")]
    MissingSection { at: u64 },
    /// A second section of the same kind. The position is that of its opening bracket.
    #[error("repeated section at {at}")]
    RepeatedSection { at: u64 },
    /// `Com_` and digits other than the single digit 1, before a bracket. The position is that of its first byte.
    #[error("many targets at {at}")]
    ManyTargets { at: u64 },
    /// A left argument that isn't a single name. The position is that of its first byte.
    #[error("left not variable at {at}")]
    LeftNotVariable { at: u64 },
    /// A left argument occurs a second time. Its position is the first byte of the second occurrence.
    #[error("left repeated at {at}")]
    LeftRepeated { at: u64 },
    /// A term with another number of arguments than at its symbol's first occurrence. The position is that of the
    /// bracket that closes the term.
    #[error("arity differs at {at}")]
    ArityDiffers { at: u64 },
    /// A literal over 2^63-1, at its first byte; or an expanded coefficient over 2^63-1, at the last byte of the
    /// argument, the cost or the atom.
    #[error("number too large at {at}")]
    NumberTooLarge { at: u64 },
    /// A limit is exceeded. The position is the first byte of the first item over the limit, or of the name; for an
    /// expression that expands to too much, the last byte of the argument, the cost or the atom.
    #[error("limit at {at}")]
    Limit { kind: LimitKind, at: u64 },
    /// No rule leaves the start symbol, and the text has no other fault. Its position is the first byte of that symbol.
    #[error("start unknown at {at}")]
    StartUnknown { at: u64 },
    /// `||`. The position is that of its first byte.
    #[error("disjunction at {at}")]
    Disjunction { at: u64 },
    /// Memory ran out.
    #[error("out of memory")]
    Memory,
}

impl From<AllocError> for ReadError {
    ghost from_gives = { λ _ e. e ≡ Memory };

    fn from(_error: AllocError) -> ReadError {
        ReadError::Memory
    }
}

impl<T: Drop> From<AllocFailed<T>> for ReadError {
    ghost from_gives = { λ _ e. e ≡ Memory };

    fn from(_error: AllocFailed<T>) -> ReadError {
        ReadError::Memory
    }
}
