//! Answers to a linear program as a type.

/// The answer to a linear program, as text.
#[derive(Debug, PartialEq, Eq, Drop)]
pub enum LpAnswer {
    /// The end of the sequence of tableaux: a solution of least cost, or a dual, which shows that there is no solution.
    Ended(Vec<u8>),
    /// Why the end isn't reached: a number is out of range, or there are too many bases.
    Stopped(Vec<u8>),
}
