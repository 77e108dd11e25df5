//! Sparse rows of fractions: entries of a column and a nonzero fraction, in ascending order of columns.
//!
//! Builds on `frac128` and on the merge of `sparse_merge`. Main guarantee: `SparseRow::plus_multiple` gives the row
//! whose fraction at each column is the exact sum, or `Range` with the least column at which a fraction is out of
//! range.
#![tactic(auto)]

mod multiple;
mod row;

pub use row::{SparseError, SparseRow};
