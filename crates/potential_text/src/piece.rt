//! The pieces of lines.

/// The word that a name is. Where a name can stand, each word is a name.
#[derive(Clone, Copy, Debug, PartialEq, Eq)]
pub enum Word {
    Signed,
    Fall,
    Peak,
    Row,
    Rows,
    Zero,
    Times,
    Least,
    Add,
    Among,
    Sized,
    Phases,
    Functions,
    Den,
    Moves,
    Pays,
    Counts,
    Keep,
    Reset,
    By,
    Most,
    To,
    Part,
    Sum,
    Product,
    Maximum,
    Minimum,
    Quotient,
    Root,
    Power,
    Claim,
    Time,
    Cost,
    Total,
    Above,
    Below,
    /// No word of lines.
    Other,
}

/// A sign: a piece of one byte.
#[derive(Clone, Copy, Debug, PartialEq, Eq)]
pub enum Sign {
    /// A blank.
    Blank,
    /// A line feed.
    LineFeed,
    /// `[`
    OpenSquare,
    /// `]`
    CloseSquare,
    /// `{`
    OpenCurly,
    /// `}`
    CloseCurly,
    /// `(`
    Open,
    /// `)`
    Close,
    /// `;`
    Semicolon,
    /// `-`
    Minus,
    /// `*`
    Star,
    /// `.`
    Dot,
}

/// What a piece is.
#[derive(Clone, Copy, Debug, PartialEq, Eq)]
pub enum Sort {
    /// A name, and which word it is.
    Name(Word),
    /// Decimal digits without a leading zero; a number over 2^127-1 counts as 2^127.
    Number(u128),
    /// A sign.
    Sign(Sign),
    /// Bytes that are no piece of any line.
    Wrong,
}

/// A piece, with the position of its first byte, and how many bytes it has.
#[derive(Clone, Copy, Debug, PartialEq, Eq)]
pub struct Piece {
    pub sort: Sort,
    pub at: u64,
    pub len: u64,
}
