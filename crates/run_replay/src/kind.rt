//! Kinds of refusals of run files.

/// Kinds of refusals, without positions.
#[derive(Clone, Copy, Debug, PartialEq, Eq)]
pub enum RunKind {
    Syntax,
    NumberTooLarge,
    BadReference,
    ArityDiffers,
    Limit,
}
