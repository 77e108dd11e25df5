//! Builds the linear program of a question, group by group: `Builder` takes the rows, the goals and the fixed form of
//! each group and writes its lines with an `EntryWriter`, which stores the nonzero numbers. So the entries come in
//! order, and no cell has two.
//!
//! Builds on `simplex_core` (the problems that `solve` takes) and `poly_terms` (rows). Main guarantee: the result of
//! `Builder::finish` satisfies the precondition of `solve`, and its linear program agrees with the question's.
#![tactic(auto)]

mod builder;
mod costs;
mod description;
mod law;
mod line;
mod writer;

pub use builder::Builder;
pub use description::{Cost, Goal};
pub use law::held_questions_are_proper;
pub use poly_terms::Row;
pub use writer::EntryWriter;
