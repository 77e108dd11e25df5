//! Programs of the small while language as types.
//!
//! Builds on `while_model` (programs as plain data, and their executions) and `its_model` (expressions and atoms). It
//! says which programs are within the limits; it has no functions.
#![tactic(auto)]

mod stmt;

pub use its_model::{Atom, Name, Rel};
pub use poly_terms::{Expr, Memory};
pub use stmt::{Stmt, Whole};
