//! The pieces of a section.

/// The word that a name is. Where a name is allowed, each word is a name.
#[derive(Clone, Copy, Debug, PartialEq, Eq)]
pub enum Word {
    Copy,
    Of,
    Facts,
    From,
    Rule,
    To,
    By,
    Never,
    If,
    Then,
    Else,
    /// A name that is no word of sections.
    Other,
}

/// A sign: a piece of one byte.
#[derive(Clone, Copy, Debug, PartialEq, Eq)]
pub enum Sign {
    /// A blank.
    Blank,
    /// A line feed.
    LineFeed,
    /// `[`
    OpenSquare,
    /// `]`
    CloseSquare,
    /// `(`
    Open,
    /// `)`
    Close,
    /// `;`
    Semicolon,
    /// `-`
    Minus,
}

/// The sort of a piece.
#[derive(Clone, Copy, Debug, PartialEq, Eq)]
pub enum Sort {
    /// A name, and which word it is.
    Name(Word),
    /// Decimal digits without a leading zero; a number over 2^56 counts as 2^56+1.
    Number(u128),
    /// A sign.
    Sign(Sign),
    /// Bytes that are no piece of any section.
    Wrong,
}

/// A piece, with the position of its first byte, and how many bytes it has.
#[derive(Clone, Copy, Debug, PartialEq, Eq)]
pub struct Piece {
    pub sort: Sort,
    pub at: u64,
    pub len: u64,
}
