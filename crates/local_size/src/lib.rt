//! Searches for local size bounds: bounds on a new value after one step, in terms of the values before.
//!
//! Builds on `simplex_core` (which solves the linear programs) and `rule_questions` (which sets them up). Main
//! guarantee: each answer is given exactly in its case. `linear_forms` defines which linear programs are solved,
//! `rule_forms` what their answers prove, and `simplex_core` which limits they can exceed.
#![tactic(auto)]

mod answer;
mod kinds;
mod laws;
mod place;
mod polynomial;
mod problem;
mod reading;
mod rows;
mod search;
mod side;

pub use answer::LocalAnswer;
pub use laws::{
    local_answers_are_exact, local_answers_are_one, local_bounds_are_accepted,
    local_bounds_are_first, local_values_are_as_worked_out, unbounded_answers_are_unbounded,
};
pub use outcome::UnboundedSide;
pub use place::local;
