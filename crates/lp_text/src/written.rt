//! Linear programs in their written form.

/// A linear program in its written form.
#[derive(Debug, PartialEq, Eq, Drop)]
pub struct WrittenLp {
    /// The number of columns, with its sign.
    pub columns: i128,
    /// The first costs, one for each column.
    pub first: Vec<u128>,
    /// The second costs, one for each column.
    pub second: Vec<u128>,
    /// The rows in order.
    pub rows: Vec<WrittenRow>,
}

/// A row in its written form.
#[derive(Debug, PartialEq, Eq, Drop)]
pub struct WrittenRow {
    /// The numbers, one for each column.
    pub numbers: Vec<i128>,
    /// The right side.
    pub right: i128,
}
