//! The facts at the symbols of a program that all copies of a symbol in a section have.
//!
//! Builds on `refined_programs` (sections) and `section_checks` (when one is accepted). Main guarantee: `symbol_facts`
//! gives exactly the facts that `specs/Common` defines, in time near-linear in the section, and by an accepted section
//! each of them holds whenever a run of the program itself is at its symbol (`symbol_facts_hold`).
#![tactic(auto)]

mod common;
mod fact;
mod finding;
mod law;
mod strongest;

pub use fact::SymbolFact;
pub use finding::symbol_facts;
pub use law::{symbol_facts_hold, worked_facts_hold};
