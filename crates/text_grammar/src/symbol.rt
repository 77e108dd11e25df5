//! Symbols of a grammar, and how its rules are spelled as a list of items.

/// A symbol of an alternative's body.
#[derive(Clone, Copy, Debug, PartialEq, Eq)]
pub enum Symbol {
    /// A piece of this class.
    Piece(u32),
    /// A nonterminal.
    Made(u32),
    /// A mark: its action is done at this point.
    Mark(u32),
}

/// An item of the list that spells a grammar's rules.
#[derive(Clone, Copy, Debug, PartialEq, Eq)]
pub enum Item {
    /// A piece of this class comes next in the body.
    APiece(u32),
    /// A nonterminal comes next in the body.
    AMade(u32),
    /// A mark comes next in the body.
    AMark(u32),
    /// The body ends, and another alternative begins.
    Or,
    /// The body ends, and so do the nonterminal's alternatives.
    End,
}
