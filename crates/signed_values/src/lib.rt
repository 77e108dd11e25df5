//! The values of signed bounds at lists of start values, and the lists at which bounds are compared.
//!
//! Builds on `signed_bounds` (bounds and their values) and `bound_expr` (sums, products and powers up to 2^127). Main
//! guarantee: `capped_value` gives a value exactly, up to 2^127, or none; and where `is_at_most` says so, one bound is
//! at most another at each of the lists.
#![tactic(auto)]

mod comparing;
mod polynomials;
mod starts;
mod values;
mod worked;

pub use comparing::is_at_most;
pub use poly_terms::Memory;
pub use starts::comparison_starts;
pub use values::capped_value;
pub use worked::starts_are_as_worked_out;
