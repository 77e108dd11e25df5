//! Makers of sections of a program, and of a program with fewer atoms. They search without proof: a section is checked
//! before it is used.
//!
//! Builds on `refined_programs` and `guard_prep`. No contract says that a maker finds anything: a section counts if
//! `refinement_check::accept` accepts it. Of `without_large_atoms` it is proved that the program that it makes has the
//! rules of the program with weaker guards, so that bounds carry over.
#![tactic(auto)]

mod atoms;
mod cells;
mod forms;
mod last_rule;
mod loops;
mod names;
mod sign_cases;

pub use atoms::{lighter_programs_keep_bounds, without_large_atoms};
pub use cells::section_by_guards;
pub use last_rule::section_by_last_rule;
pub use loops::{section_with_peeled_loops, section_with_unrolled_loops};
