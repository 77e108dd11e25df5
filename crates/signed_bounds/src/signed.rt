//! Signed bounds as the code holds them.

use poly_terms::Poly;

/// A bound over the start arguments: an expression whose value is a natural number at all integers.
///
/// An empty sum or maximum is 0, an empty product is 1, a power with exponent 0 is 1, and a quotient by 0 is 0.
#[derive(Debug, PartialEq, Eq, Drop)]
pub enum Signed {
    /// A fixed number.
    Const(u128),
    /// The positive part of a polynomial over the start arguments: its value, or 0 where that is negative.
    Part(Poly),
    /// The sum of the parts.
    Sum(Vec<Signed>),
    /// The product of the parts.
    Prod(Vec<Signed>),
    /// The maximum of the parts.
    Max(Vec<Signed>),
    /// The minimum of a first part and the others.
    Min(Box<Signed>, Vec<Signed>),
    /// A bound divided by a fixed number, rounded down.
    Quotient(Box<Signed>, u128),
    /// The square root of a bound, rounded down.
    Root(Box<Signed>),
    /// A fixed base to the power of a bound.
    Power(u64, Box<Signed>),
}
