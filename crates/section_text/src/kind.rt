//! Kinds of refusals of sections.

/// The kinds of refusals, without their positions, in the order in which they are reported at one position.
#[derive(Clone, Copy, Debug, PartialEq, Eq)]
pub enum SectionKind {
    Syntax,
    NumberTooLarge,
    TooDeep,
    BadReference,
    Limit,
}
