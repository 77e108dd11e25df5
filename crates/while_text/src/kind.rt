//! Kinds of refusals of while programs.

/// The limits of a while program, in the order in which they are reported at one position.
#[derive(Clone, Copy, Debug, PartialEq, Eq)]
pub enum WhileKind {
    Name,
    Tokens,
    Terms,
    Degree,
    Atoms,
    Variables,
    Depth,
    Rules,
}

/// The kinds of refusals, without their positions.
#[derive(Clone, Copy, Debug, PartialEq, Eq)]
pub enum Kind {
    NotAscii,
    Syntax,
    NumberTooLarge,
    UnknownName,
    RepeatedName,
    Limit(WhileKind),
}
