//! The parts of a while program, and whether it has had a fault.

/// The part of a while program that is being read.
#[derive(Clone, Copy, Debug, PartialEq, Eq)]
pub enum Phase {
    /// The names of the inputs.
    Inputs,
    /// Statements, outside of their parts.
    Statements,
    /// An assignment after its variable.
    Assignment,
    /// The value of an assignment.
    Value,
    /// A test outside of its atoms, or the tokens between it and its block.
    Test,
    /// An atom up to its relation.
    Left,
    /// The right side of an atom.
    Right,
}

/// Whether a while program has had a fault, and whether a later fault can precede it.
#[derive(Clone, Copy, Debug, PartialEq, Eq)]
pub enum Standing {
    /// It has had no fault.
    Sound,
    /// It has had a fault in a test whose statement may still have too many rules.
    Faulty,
    /// It has had a fault, and every later one has a greater position.
    Settled,
}
