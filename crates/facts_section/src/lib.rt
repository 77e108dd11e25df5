//! The section of a program that location facts make: a copy of each symbol with the facts of it that are needed, and
//! the certificates of these facts as multipliers.
//!
//! Builds on `location_facts` and `refined_programs`. Main guarantee: the section of `facts_section` has, apart from the
//! numbers among its multipliers, one form: one copy of each symbol, with exactly the strongest of its facts, or if
//! these are more than 32, those of them that others don't imply; and one branch of each rule, which leads to the copy
//! of its target without a test and has a list of multipliers for each fact there. No contract says that the
//! multipliers show the facts: the section counts if `refinement_check::accept` accepts it. It isn't accepted if a
//! guard with facts is over the limits of a rule.
#![tactic(auto)]

mod copies;
mod law;
mod multipliers;
mod needed;
mod section;
mod shares;

pub use law::facts_are_worked_out;
pub use section::facts_section;
