//! Why a proof file is refused.

/// Kinds of refusals, without their positions.
#[derive(Clone, Copy, Debug, PartialEq, Eq)]
pub enum ProofKind {
    Syntax,
    NumberTooLarge,
    TooDeep,
    BadReference,
    Limit,
}
