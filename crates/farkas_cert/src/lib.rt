//! Checks certificates by Farkas' lemma and points of linear inequalities ("rows"), in machine integers without
//! overflow.
//!
//! Builds on `linear_forms` (definitions and laws) and `poly_terms` (rows). Main guarantee: `implies` and `empty`
//! return true exactly if the multipliers certify that a form follows from rows, or that the rows have no point;
//! `on_rows` returns true exactly if a scaled point satisfies all rows. What a true result of the former implies is the
//! law `linear_forms::certificates_hold`. No sum overflows, and no call allocates memory.
#![tactic(auto)]

mod combination;
mod implication;
mod law;
mod scaled;

pub use implication::{empty, implies};
pub use law::{limit_is_as_defined, rows_of_a_rule_are_small, sizes_are_as_worked_out};
pub use linear_forms::CERTIFICATE_LIMIT as LIMIT;
pub use scaled::{Scaled, on_rows, row_value};
