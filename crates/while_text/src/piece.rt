//! The tokens of a while program.

/// The sort of a token.
#[derive(Clone, Copy, Debug, PartialEq, Eq)]
pub enum Sort {
    Input,
    Skip,
    While,
    If,
    Else,
    /// `TRUE` or `true`.
    Truth,
    /// A name that is no keyword.
    Name,
    /// A number; one over 2^63 counts as 2^63.
    Number(u128),
    /// `:=`
    Becomes,
    Question,
    Semicolon,
    Comma,
    Open,
    Close,
    BlockOpen,
    BlockClose,
    /// `&&` or `/\`.
    Joint,
    AtLeast,
    MoreThan,
    AtMost,
    LessThan,
    /// `=` or `==`.
    Equal,
    Plus,
    Minus,
    Times,
    Caret,
    /// A byte over 127.
    Strange,
    /// Any other byte that begins no token.
    Wrong,
}

/// How the next byte that is no white space continues an expression.
#[derive(Clone, Copy, Debug, PartialEq, Eq)]
pub enum Follower {
    /// `+`, `-` or `*`, which continue each operand.
    Operator,
    /// `^`, which continues a base.
    Caret,
    /// Anything else, or nothing.
    Other,
}

/// A token: its sort, the position of its first byte, its number of bytes, and its follower.
#[derive(Clone, Copy, Debug, PartialEq, Eq)]
pub struct Piece {
    pub sort: Sort,
    pub at: u64,
    pub len: u64,
    pub follower: Follower,
}
