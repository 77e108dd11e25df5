//! The questions about the rules of a program that the searches ask, in machine integers: the rules as affine forms,
//! the rows of a question, the parts of a solution or dual, and whether the rows of a rule have a point.
//!
//! Builds on `lp_builder` (linear programs of questions), `poly_terms`, `farkas_cert` and `cert_types`. Main guarantee:
//! `ProgramQuestions` defines the questions about a program's rules, `Programs` when a problem is that of a question,
//! and `EmptyAnswers` the meaning of an answer about the rows of a rule; that answer is exact and the only one.
#![tactic(auto)]

mod laws;
mod parameters;
mod rows;
mod scaled;

pub use laws::{empty_answers_are_exact, empty_answers_are_one, empty_nodes_are_accepted};
pub use parameters::parameter_at;
pub use rows::{constant_row, difference, unit_row};
pub use scaled::{element_from, multipliers_from};
