//! Linear programs and their answers.

/// A nonzero number of an equation, at a column.
#[derive(Clone, Copy, Debug, PartialEq, Eq)]
pub struct Entry {
    /// The column, from 0.
    pub column: u32,
    pub value: i128,
}

/// The sum of the columns, each times its number, is the right side. The entries ascend by columns, and none is 0.
#[derive(Debug, Drop)]
pub struct Equation {
    pub entries: Vec<Entry>,
    pub right: i128,
}

/// An unknown: what each unit of it costs, and whether it may be negative.
#[derive(Clone, Copy, Debug, PartialEq, Eq)]
pub struct Column {
    pub cost: i128,
    pub is_free: bool,
}

/// The least cost of columns that meet the equations, each at least 0 but for the free ones.
#[derive(Debug, Drop)]
pub struct LinearProgram {
    pub columns: Vec<Column>,
    pub equations: Vec<Equation>,
}

/// Values of the columns over a common denominator.
#[derive(Debug, Drop)]
pub struct Solution {
    pub numerators: Vec<i128>,
    /// At least 1.
    pub den: i128,
}

/// What the method found.
#[derive(Debug, Drop)]
pub enum Answer {
    /// These values meet the equations, and as far as the method says no others cost less.
    Optimal(Solution),
    /// As far as the method says no values meet the equations.
    Infeasible,
    /// As far as the method says there is no least cost.
    Unbounded,
}
