//! Affine expressions that have the same value everywhere, a natural number.
//!
//! Builds on `poly_terms` (expressions and their values). Main guarantee: `is_natural_constant` decides by the values at
//! the origin and at each unit point whether an affine expression over the first variables is such a constant, however
//! many variables it has; and such an expression is never negative (`natural_constants_are_natural`).
#![tactic(auto)]

mod constant;
mod law;

pub use constant::is_natural_constant;
pub use law::{constants_are_as_worked_out, natural_constants_are_natural};
pub use poly_terms::{Expr, Memory};
