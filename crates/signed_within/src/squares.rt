//! Expressions that expand to sums of squares.

ghost use Rattle.std.specs.Prelude.{◌≡◌, IfOk};
ghost use Rattle.poly_terms.specs.Views.{term_of, monomial_of, monomials_of};
ghost use Rattle.signed_bounds.specs.Safe.{expands_to_squares as expands, is_sum_of_squares as are_squares};
ghost use Rattle.signed_bounds.specs.Safe.{is_square_multiple as is_multiple, are_paired as come_in_pairs};

use poly_terms::{Expr, Memory, Monomial, PolyError, expand};
use std::alloc::{AllocError, Global};

/// Whether an expression expands within the limits of expanded forms, to monomials with coefficients of at least 0 in
/// which each variable occurs an even number of times. Such an expression is never negative.
///
/// # Errors
///
/// `Memory` where an allocation fails.
pub fn expands_to_squares(alloc: Global, e: &Expr) -> Result<bool, Memory>
    ensures { IfOk result (λ r. r ≡ expands (term_of e.now)) }
{
    match expand(alloc, e) {
        Ok(p) => Ok(is_sum_of_squares(&p.terms)),
        Err(PolyError::CoefTooLarge) => Ok(false),
        Err(PolyError::TooManyTerms) => Ok(false),
        Err(PolyError::DegreeTooHigh) => Ok(false),
        Err(PolyError::Memory) => Err(AllocError),
    }
}

// Whether each monomial is a square times a number of at least 0.
fn is_sum_of_squares(monomials: &[Monomial]) -> bool
    ensures { result ≡ are_squares (monomials_of monomials.now) }
{
    for monomial in monomials {
        if !is_square_multiple(monomial) {
            return false;
        }
    }
    true
}

// Whether a monomial is a square times a number of at least 0.
fn is_square_multiple(monomial: &Monomial) -> bool
    ensures { result ≡ is_multiple (monomial_of monomial.now) }
{
    monomial.coef >= 0 && are_paired(&monomial.vars)
}

// Whether variables come in pairs of equal ones.
fn are_paired(vars: &[u32]) -> bool
    ensures { result ≡ come_in_pairs vars.now }
{
    match vars {
        [] => true,
        [v, w, others @ ..] => *v == *w && are_paired(others),
        [_] => false,
    }
}
