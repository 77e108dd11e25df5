//! Prepares a rule as linear inequalities ("rows"): those of its guard's linear atoms, its new values as affine forms,
//! and the polynomials of its updates.
//!
//! Builds on `its_model` (programs), `poly_terms` (polynomials), `farkas_cert` and `int_laws`. Main guarantee: `rows`
//! gives exactly the rows, new values, nonlinear places and polynomials of the plain rule (`prepared`), and each step
//! of a valid program is a point of its rule's rows.
#![tactic(auto)]

mod laws;
mod preparing;
mod rule_rows;
mod tighten;

pub use laws::{
    costs_are_points, guards_give_points, points_are_as_worked_out, rows_are_as_worked_out,
    rows_are_small, rows_are_the_linear_part, rows_suit_certificates, steps_are_points,
    tightening_keeps_whole_solutions, valid_rules_are_preparable,
};
pub use preparing::rows;
pub use rule_rows::RuleRows;
