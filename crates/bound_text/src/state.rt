//! The state of parsing a bound.

ghost use Rattle.std.specs.Prelude.{◌≡◌, IsTrue};
ghost use Rattle.bound_text.specs.Steps.{beginning};
ghost use Rattle.bound_text.specs.Views.{state_of, is_settled};

use crate::brackets::Brackets;
use crate::measured::Measured;
use crate::size::Round;
use std::alloc::Global;

/// The node that an open bracket belongs to.
#[derive(Drop)]
pub enum Bracket {
    /// A maximum, with its arguments so far.
    Arguments(Measured),
    /// A power, with its base.
    Exponent(u64),
    /// A sum, as a factor.
    Factor,
}

/// An open bracket, with the terms and the factors before it, and the counts around a bound in it.
#[derive(Drop)]
pub struct Opened {
    pub bracket: Bracket,
    pub terms: Measured,
    pub factors: Measured,
    pub within: Round,
}

/// The part that was read last.
#[derive(Clone, Copy, Debug, PartialEq, Eq)]
pub enum Position {
    /// An item can begin.
    Begins,
    /// A number that begins an item, not yet a factor.
    Number(u128),
    /// A variable that begins an item, not yet a factor.
    Name(u32),
    /// The `^` of a run of this variable.
    RunCaret(u32),
    /// The `^` of a power with this base.
    PowerCaret(u64),
    /// An item.
    ItemRead,
    /// The first blank of ` + `.
    BlankRead,
    /// The `+` of ` + `.
    PlusRead,
    /// The comma of `, `.
    CommaRead,
}

/// The part of a text that has been read: the open brackets, the outermost first, then the terms and the factors of the
/// innermost bound, and the position.
#[derive(Drop)]
pub struct Reader {
    pub(crate) outer: Brackets,
    pub(crate) terms: Measured,
    pub(crate) factors: Measured,
    pub(crate) position: Position,
}

impl Reader {
    /// The state in which nothing has been read.
    pub fn new(alloc: Global) -> Reader
        ensures front { state_of result ≡ beginning }
        ensures settled { IsTrue (is_settled result) }
    {
        Reader {
            outer: Brackets::new(alloc),
            terms: Measured::new(alloc),
            factors: Measured::new(alloc),
            position: Position::Begins,
        }
    }
}
