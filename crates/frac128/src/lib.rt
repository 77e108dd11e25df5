//! Exact fractions of 128-bit integers, for the numbers of the simplex method.
//!
//! Builds on the laws of `int_laws`. Main guarantee: each operation returns the exact value, or `Range` exactly if a
//! number in its defining formula, evaluated as written and before any reduction, has an absolute value over 2^127 - 1.
//! Nothing allocates memory.
#![tactic(auto)]

ghost use Rattle.frac128.specs.Fraction.{EqualFractionsAreIdentical};

mod divisor;
mod frac;
mod narrow;

pub use frac::Frac;
pub use narrow::Range;

/// Fractions with the same value have the same numerator and denominator, so `==` compares values.
pub fn equal_fractions_are_identical()
    ensures { EqualFractionsAreIdentical }
{}
