//! Makes sections with further facts at their copies: sums and differences of two places, single places, and the forms of
//! guards, with constants of the program.
//!
//! Builds on `refined_programs` and `guard_prep`. A search without contracts: no clause says that it finds anything, and
//! a section that it makes counts only if `refinement_check::accept` accepts it.
#![tactic(auto)]

mod candidates;
mod linear_programs;
mod paths;
mod rounds;
mod rows;
mod section;
mod symbols;

pub use section::section_with_facts;
pub use symbols::section_by_symbol;
