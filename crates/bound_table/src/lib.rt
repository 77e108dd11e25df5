//! Simplifies bounds by a table of rewriting cases, and compares two bounds.
//!
//! Builds on `bound_expr`. Main guarantee: a rewritten bound has the same value at all arguments as the bound before
//! (`simplify`), and where `below` answers yes, the first bound's value is never greater than the second's.
#![tactic(auto, using(crate::proofs::Loops::views))]

mod counting;
mod distribution;
mod dominance;
mod folding;
mod joining;
mod kinds;
mod likes;
mod lower;
mod marks;
mod order;
mod powers;
mod rewriting;
mod sorting;
mod structure;
mod terms;
mod within;
mod worked;

pub use kinds::{Case, Cases, LARGE, SMALL};
pub use lower::below;
pub use rewriting::{rewrite, simplify, tables_are_as_defined};
pub use structure::compare;
pub use within::{RewriteResult, rewrite_within};
pub use worked::{
    cases_are_as_worked_out, lower_bounds_are_as_worked_out, parts_are_as_worked_out,
};
