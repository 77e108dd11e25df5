//! Sample questions for tests and benchmarks: questions with given parts, which are checked before they are written,
//! the rank questions of rings and chains of rules, and a check whether a problem made elsewhere is valid.
//!
//! Builds on `lp_builder`. Main guarantee: a problem that is made here, or found valid, meets the precondition of
//! `solve`.
#![tactic(auto)]

mod parts;
mod proper;
mod ranks;
mod writable;

pub use parts::{Part, problem_of};
pub use proper::is_proper;
pub use ranks::{Shape, rank_problem};
