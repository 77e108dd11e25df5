//! Signed bounds: expressions over the start values, which may be negative, whose values are natural numbers. Contracts
//! see a bound as the plain expression `signed_of b`, whose value at x is `signed_val (signed_of b) x`.
#![tactic(auto)]

mod laws;
mod limits;
mod measured;
mod signed;
mod worked;

pub use laws::{
    bounds_are_within_themselves, signed_bounds_keep_values, squares_are_safe, within_holds,
};
pub use limits::{
    COMPARISON_LIMIT, CONSTANT_LIMIT, DEPTH_LIMIT, EXPANSION_LIMIT, NODE_LIMIT, PRODUCT_LIMIT,
    QUOTIENT_LIMIT, limits_are_as_defined,
};
pub use poly_terms::Memory;
pub use signed::Signed;
pub use worked::{bounds_are_as_worked_out, comparisons_are_as_worked_out};
