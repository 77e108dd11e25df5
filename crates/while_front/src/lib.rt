//! Programs of the small while language as integer transition systems.
//!
//! Builds on `while_tree` (programs as types) and `while_model` (executions, and the definition of the translation).
//! Main guarantee: `translate` gives exactly the translated program, which is valid;
//! its runs correspond to the executions (`while_model`).
#![tactic(auto)]

mod free_name;
mod law;
mod moves;
mod negations;
mod points;
mod rules;
mod translation;
mod updates;

pub use its_model::{Atom, Name, Program, Rel};
pub use law::readable_programs_are_valid;
pub use poly_terms::{Expr, Memory};
pub use translation::translate;
pub use while_tree::{Stmt, Whole};
