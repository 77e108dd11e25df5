//! The limits of expanded forms.

ghost use Rattle.std.specs.Prelude.{◌≡◌, ◌<◌, ◌≤◌, nat_abs, true, false};
ghost use Rattle.model.specs.Limits.{coefficient_limit};
ghost use Rattle.model.specs.Polynomials.{degree_of};
ghost use Rattle.poly_terms.specs.Faults.{has_large, fault_in};
ghost use Rattle.poly_terms.specs.Views.{poly_of, monomials_of};
ghost use Rattle.poly_terms.specs.Answers.{Answers};

use crate::poly::{Monomial, Poly};
use crate::poly_error::PolyError;
use model::{COEFFICIENT_LIMIT, DEGREE_LIMIT, MONOMIAL_LIMIT};

/// The polynomial, or its least fault as a power with this exponent.
pub(crate) fn limited(p: Poly, exponent: u32) -> Result<Poly, PolyError>
    ensures { Answers result (fault_in (poly_of p) exponent) (poly_of p) }
{
    if has_large_coefficient(&p.terms) {
        Err(PolyError::CoefTooLarge)
    } else if p.terms.len() > MONOMIAL_LIMIT {
        Err(PolyError::TooManyTerms)
    } else if exponent > DEGREE_LIMIT || degree(&p.terms) > DEGREE_LIMIT as usize {
        Err(PolyError::DegreeTooHigh)
    } else {
        Ok(p)
    }
}

// Whether some coefficient is over 2^63-1 in absolute value.
fn has_large_coefficient(terms: &[Monomial]) -> bool
    ensures { result ≡ has_large (monomials_of terms.now) }
{
    for m in terms {
        if is_large(m.coef) {
            return true;
        }
    }
    false
}

/// Whether an integer is over 2^63-1 in absolute value.
pub(crate) fn is_large(z: i128) -> bool
    ensures yes { result ≡ true → coefficient_limit < nat_abs z }
    ensures no { result ≡ false → nat_abs z ≤ coefficient_limit }
{
    z.unsigned_abs() > COEFFICIENT_LIMIT as u128
}

/// The greatest number of factors of a monomial.
pub(crate) fn degree(terms: &[Monomial]) -> usize
    ensures { result ≡ degree_of (monomials_of terms.now) }
{
    let mut most = 0;
    for m in terms {
        most = most.max(m.vars.len());
    }
    most
}
