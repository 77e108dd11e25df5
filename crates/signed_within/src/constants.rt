//! Positive parts of polynomials that are written as numbers.

ghost use Rattle.std.specs.Prelude.{◌≡◌};
ghost use Rattle.poly_terms.specs.Views.{monomial_of, poly_of};
ghost use Rattle.signed_bounds.specs.Bounds.{positive_part as part_of_integer};
ghost use Rattle.signed_bounds.specs.Products.{constant_part as part_in};
ghost use Rattle.signed_within.specs.Terms.{monomial_part};

use poly_terms::{Monomial, Poly};

/// The positive part of a polynomial that is written as a number: without monomials, or with one that has no variables.
pub(crate) fn constant_part(p: &Poly) -> Option<u128>
    ensures { result ≡ part_in (poly_of p.now) }
{
    match p.terms.split_first() {
        None => Some(0),
        Some((only, [])) => constant_part_of(only),
        Some((_, [_, ..])) => None,
    }
}

// The positive part of a monomial without variables.
fn constant_part_of(monomial: &Monomial) -> Option<u128>
    ensures { result ≡ monomial_part (monomial_of monomial.now) }
{
    match monomial.vars.first() {
        Some(_) => None,
        None => Some(positive_part(monomial.coef)),
    }
}

// The positive part of an integer.
fn positive_part(z: i128) -> u128
    ensures { result ≡ part_of_integer z }
{
    if z < 0 { 0 } else { z as u128 }
}
