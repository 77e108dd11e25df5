//! Numbers while they are read, byte by byte.

ghost use Rattle.std.specs.Prelude.{◌≤◌, ◌^◌};

/// A number that is being spelled: its sign, its value up to 2^64, and how many bytes of it have been read.
#[derive(Drop)]
pub struct Numeral {
    pub negative: bool,
    pub number: u128,
    pub spelled: u64,
    ghost capped: { number ≤ 2 ^ 64 },
}

/// The context of a number or a byte.
#[derive(Clone, Copy, Debug, PartialEq, Eq)]
pub enum NumberContext {
    /// The text's own words.
    Words,
    /// A natural number.
    Natural,
    /// A signed number that is passed to the text by itself.
    Signed,
    /// A line of values.
    Line,
}
