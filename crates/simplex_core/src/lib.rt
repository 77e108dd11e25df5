//! The simplex method with Bland's rule, over exact fractions.
//!
//! Builds on `sparse_columns` (the fast table, of integers over one denominator) and `sparse_rows` (the table of
//! fractions used where an integer doesn't fit), for linear programs as `linear_forms` defines them. Main guarantee:
//! `solve` returns a solution of least cost, or a dual exactly where there is no solution, or the first limit that
//! Bland's sequence of tableaux exceeds. Source: R. G. Bland, New finite pivoting rules for the simplex method, 1977.
#![tactic(auto)]

mod answers;
mod arithmetic;
mod checking;
mod column_table;
mod laws;
mod problem;
mod scaling;
mod sequence;
mod simplex_table;
mod solving;
mod sparse_table;

pub use answers::{Answer, solve_scaled};
pub use laws::{
    agreeing_programs_answer_the_same, answers_are_one, artificial_sums_hold,
    dual_excludes_solutions, least_costs_least, outcome_decides_solutions, whole_answers_are_one,
};
pub use problem::{Entry, Problem, SolveError, Solved};
pub use scaling::Numerators;
pub use solving::solve;
pub use sparse_rows::{SparseError, SparseRow};
