//! The comparison `within` of signed bounds: whether each n with n * den at most one bound is at most another.
//!
//! Builds on `signed_bounds` (bounds and the comparison's definition) and `poly_terms` (expanding). Main guarantee:
//! `is_within` answers exactly what the definition says, its limits first, and `expands_to_squares` whether an
//! expression expands to a sum of squares.
#![tactic(auto)]

mod constants;
mod covering;
mod fitting;
mod matching;
mod multiplying;
mod parts;
mod product;
mod sizes;
mod squares;
mod terms;
mod test;
mod whole;
mod within;

pub use squares::expands_to_squares;
pub use within::is_within;
