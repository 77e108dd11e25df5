//! Prints the lines of a proof file that state lemmas about potentials, and those that claim something of a program.
//!
//! Builds on `potential_types` (lemmas) and `claim_types` (claims). Main guarantee: `print_lemmas` and `print_claims` give
//! the text of each lemma and of each claim, as `potential_text` reads it.
#![tactic(auto)]

mod bounds;
mod certificates;
mod claims;
mod combining;
mod law;
mod lemmas;
mod moves;
mod numbers;
mod phases;
mod polynomials;

pub use claims::print_claims;
pub use law::worked_texts_hold;
pub use lemmas::print_lemmas;
