//! The pieces of a bound's text.

/// A piece of the text.
#[derive(Clone, Copy, Debug, PartialEq, Eq)]
pub enum Piece {
    /// The name of the variable with this number. An outer lexer has to give different numbers to different names that
    /// aren't listed, else `A*B` of two of them is read as one name twice.
    Variable(u32),
    /// Decimal digits.
    Number(u128),
    /// `max(`
    Maximum,
    /// `(`
    Open,
    /// `)`
    Close,
    /// `*`
    Times,
    /// `^`
    Caret,
    /// `+`
    Plus,
    /// A blank.
    Blank,
    /// `,`
    Comma,
    /// Bytes that are no piece of any text.
    Wrong,
}
