//! Polynomials times an integer.

ghost use Rattle.std.specs.Prelude.{◌≡◌, ◌<◌, ◌≤◌, [], ◌∷◌, length, map, nat_abs, slice_index_or, slice_set, IfSome};
ghost use Rattle.model.specs.Limits.{coefficient_limit};
ghost use Rattle.model.specs.Polynomials as plain;
ghost use Rattle.poly_terms.specs.Expanding.{opposite};
ghost use Rattle.poly_terms.specs.Ordered.{IsBounded, IsSmall};
ghost use Rattle.poly_terms.specs.Scaling.{times, constant};
ghost use Rattle.poly_terms.specs.Views.{monomials_of, poly_of};

use crate::poly::{Monomial, Poly};
use crate::wide::narrow_product;

/// Each coefficient multiplied by a factor.
pub(crate) fn scaled(p: Poly, factor: i128) -> Poly
    requires coefficients { IsBounded coefficient_limit (poly_of p) }
    requires small { nat_abs factor ≤ coefficient_limit }
    ensures { poly_of result ≡ map (times factor) (poly_of p) }
{
    let mut terms = p.terms;
    for i in 0..terms.len() {
        let coef = narrow_product(terms[i].coef, factor);
        set_coefficient(&mut terms, i, coef);
    }
    Poly { terms }
}

/// The negation of a polynomial.
pub(crate) fn opposite_of(p: Poly) -> Poly
    requires { IsSmall (poly_of p) }
    ensures { poly_of result ≡ map opposite (poly_of p) }
{
    scaled(p, -1)
}

/// Gives a monomial another coefficient.
pub(crate) fn set_coefficient(terms: &mut Vec<Monomial>, i: usize, coef: i128)
    requires { i < length terms.old.items }
    ensures { (d : plain.Monomial) → monomials_of terms.new.items
        ≡ slice_set (monomials_of terms.old.items) i (record {
          coef = coef;
          vars = (slice_index_or (monomials_of terms.old.items) i d).vars;
        }) }
{
    terms[i].coef = coef;
}

/// The integer of a polynomial with a single monomial without variables.
pub(crate) fn constant_of(p: &Poly) -> Option<i128>
    ensures { IfSome result (λ z. poly_of p.now ≡ constant z ∷ []) }
{
    match p.terms.as_slice() {
        [m] => {
            if m.vars.is_empty() {
                Some(m.coef)
            } else {
                None
            }
        }
        _ => None,
    }
}
