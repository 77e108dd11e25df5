//! Laws over ℤ that the crates above cite: ring and order laws, a decision procedure for polynomial identities, sums
//! over index functions, weak duality of linear programs, greatest common divisors and least common multiples.
//!
//! Depends on no other crate. The lemmas are in `proofs/`; the contracts of the two functions in this file are the main
//! ones.
#![tactic(auto)]

mod divisors;

ghost use Rattle.int_laws.specs.Laws.{PolynomialIdentitiesHold, WeakDualityHolds};

pub use divisors::{greatest_common_divisor, least_common_multiple, least_common_multiples_hold};

/// Two polynomials with the same coefficients have the same value everywhere.
pub fn polynomial_identities_hold()
    ensures { PolynomialIdentitiesHold }
{}

/// Weak duality of linear programs in equational form: prices that give each column at most its cost give the right
/// sides at most the cost of any solution.
pub fn weak_duality_holds()
    ensures { WeakDualityHolds }
{}
