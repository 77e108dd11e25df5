//! Kinds of refusals of texts of linear programs.

/// Kinds of refusals, without their positions.
#[derive(Clone, Copy, Debug, PartialEq, Eq)]
pub enum LpKind {
    Syntax,
    NumberTooLarge,
    Limit,
}
