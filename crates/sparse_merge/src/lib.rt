//! Sorted sparse vectors: lists of cells at strictly ascending indices, and one merge of two such lists into a third.
//! The caller decides what a cell holds and how the cells at one index are combined.
//!
//! Builds only on the toolchain's `smallvec`. Main guarantee: `merge_into` gives the one ascending list whose cell at
//! each index is the caller's combination of the two cells there.
#![tactic(auto)]

mod cell;
mod finding;
mod join;
mod merging;
mod taking;

pub use cell::Cell;
pub use finding::{find, search};
pub use join::{Join, Refused};
pub use merging::{Stop, merge_into};
