//! Kinds of refusals of lines, and which lines there are.

/// Kinds of refusals, without their positions, in the order in which they are reported at one position.
#[derive(Clone, Copy, Debug, PartialEq, Eq)]
pub enum LineKind {
    Syntax,
    NumberTooLarge,
    TooDeep,
    BadReference,
    Limit,
}

/// Which lines a text has.
#[derive(Clone, Copy, Debug, PartialEq, Eq)]
pub enum Part {
    /// Lines `signed`, each with a lemma.
    Lemmas,
    /// Lines `claim`.
    Claims,
}
