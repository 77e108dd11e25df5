//! The entries of a table.

use crate::symbol::Symbol;

/// The lead of symbols at a class of pieces.
#[derive(Debug, Drop)]
pub enum Entry {
    /// After these marks a piece of the class is matched, and then these symbols are expected, the next one last.
    Matches { marks: Vec<u32>, rest: Vec<Symbol> },
    /// The expected symbols derive only these marks.
    Passes { marks: Vec<u32> },
    /// No piece of the class can follow.
    Stuck,
}
