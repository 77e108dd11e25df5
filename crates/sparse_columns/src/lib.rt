//! Sparse columns of integers over one common denominator: the nonzero numbers of each column, by row.
//!
//! Builds on `int_laws` and `frac128`. These columns are the fast representation of a simplex tableau in
//! `simplex_core`. Main guarantee: an operation that succeeds gives exactly the numbers of its definition, at every
//! row; otherwise it says that a number doesn't fit its machine type, or that memory ran out.
#![tactic(auto)]

mod cell;
mod cells;
mod column;
mod narrow;
mod ratio;
mod sums;
mod totals;
mod wide;

pub use cell::Cell;
pub use cells::Cells;
pub use column::Column;
pub use wide::product;
