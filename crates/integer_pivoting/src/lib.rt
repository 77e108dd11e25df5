//! Linear programs for searches whose findings are judged elsewhere: a simplex method over sparse integer rows, each
//! divided by the greatest common divisor of its numbers.
//!
//! Builds on `int_laws` alone. Main guarantee: `solve` returns within the allowed work whatever the program is, and a
//! solution that it gives has a value for each column, each at least 0 but for the free ones, and meets each equation.
//! That a solution is least, or that there is none, is only what the method says.
#![tactic(auto)]

mod checking;
mod choosing;
mod elimination;
mod error;
mod line;
mod numbers;
mod phases;
mod program;
mod solving;
mod tableau;
mod values;

pub use error::SolveError;
pub use program::{Answer, Column, Entry, Equation, LinearProgram, Solution};
pub use solving::solve;
