//! The pieces of a proof file, and what those before them leave open.

use bound_text::Piece as BoundPiece;

/// The word that a name is.
#[derive(Clone, Copy, Debug, PartialEq, Eq)]
pub enum Word {
    Lemma,
    Gap,
    End,
    Cite,
    Start,
    Empty,
    Unreached,
    Never,
    Rank,
    Spread,
    Cycle,
    Weaken,
    Cost,
    Uses,
    Set,
    Den,
    Forms,
    Moves,
    Floor,
    Up,
    Low,
    Poly,
    Lin,
    To,
    Shut,
    Kept,
    /// A name that is no word of proof files.
    Other,
}

/// A sign: a piece of one byte.
#[derive(Clone, Copy, Debug, PartialEq, Eq)]
pub enum Sign {
    /// A blank.
    Blank,
    /// A line feed.
    LineFeed,
    /// `[`
    OpenSquare,
    /// `]`
    CloseSquare,
    /// `{`
    OpenBrace,
    /// `}`
    CloseBrace,
    /// `(`
    Open,
    /// `)`
    Close,
    /// `;`
    Semicolon,
    /// `.`
    Dot,
    /// `-`
    Minus,
}

/// The part of a place of a symbol after its last dot.
#[derive(Clone, Copy, Debug, PartialEq, Eq)]
pub enum Behind {
    /// No dot is followed by digits alone: the whole is a name.
    NoNumber,
    /// Nothing follows the dot.
    Nothing,
    /// Digits with a leading zero.
    LeadingZero,
    /// A number, where one over 2^127 counts as 2^127.
    Number(u128),
}

/// A piece of a proof file. A name that no symbol has counts as the symbol after the last one, and symbols from 2^32-1
/// on count as that one.
#[derive(Clone, Copy, Debug, PartialEq, Eq)]
pub enum Piece {
    /// `koat-proof`, with which a file begins.
    First,
    /// A name: which word it is, and which symbol has it.
    Name(Word, u32),
    /// Decimal digits without a leading zero, where a number over 2^127 counts as 2^127.
    Number(u128),
    /// A sign: a piece of one byte.
    Sign(Sign),
    /// A place in a list of shut places: a symbol, and the part after the dot.
    Place(u32, Behind),
    /// A piece of a bound, its number of bytes, and whether the bound ends after it.
    InBound(BoundPiece, u64, bool),
    /// Bytes that are no piece of any proof file.
    Wrong,
}

/// The mode: what the pieces before leave open.
#[derive(Clone, Copy, Debug, PartialEq, Eq)]
pub enum Mode {
    /// Nothing has been read.
    Beginning,
    /// Nothing is open.
    Plain,
    /// `shut` was read, and its list isn't closed.
    InShut,
    /// `)` was read last.
    Closed,
    /// `)` and a blank were read last.
    ClosedBlank,
    /// `) to` was read last.
    To,
    /// A bound is open, with this many open brackets, and this many of its pieces were read.
    InBound(u64, u64),
}
