//! Whether a product is at most another one as a whole.

ghost use Rattle.std.specs.Prelude.{◌≡◌, IfOk};
ghost use Rattle.poly_terms.specs.Views.{poly_of};
ghost use Rattle.signed_bounds.specs.Bounds.{Part, NoParts};
ghost use Rattle.signed_bounds.specs.Views.{signed_of, signeds_of, parts_of};
ghost use Rattle.signed_bounds.specs.Safe.{expands_to_squares as expands};
ghost use Rattle.signed_bounds.specs.Covers.{is_below_constant as lies_below_constant, fits_whole as is_fitting_whole};
ghost use Rattle.signed_bounds.specs.Covers.{fits_polynomial as is_fitting_polynomial};
ghost use Rattle.signed_bounds.specs.Covers.{fits_maximum as is_fitting_maximum, one_polynomial};
ghost use Rattle.signed_bounds.specs.Covers.{whole_polynomial as polynomial_of_all};
ghost use Rattle.signed_within.specs.Views.{signed_at};
ghost use Rattle.signed_within.specs.Singles.{IsSingle, IsPolynomial};
ghost use Rattle.signed_within.specs.Wholes.{IsWhole};

use crate::fitting::maximum_parts;
use crate::terms::is_weighted_below;
use poly_terms::{Memory, Monomial, Poly};
use signed_bounds::Signed;
use std::alloc::Global;

/// The polynomial whose positive part a product of factors is.
#[derive(Clone, Copy)]
pub(crate) enum Whole<'a> {
    /// The polynomial 1: there are no factors.
    One,
    /// The polynomial of the only factor, a positive part.
    Polynomial(&'a Poly),
    /// There is no such polynomial.
    Other,
}

/// Whether `n` times the factors are at most `m` times the others as a whole: a number or a polynomial each, or a
/// number and a maximum with a constant that is large enough.
///
/// # Errors
///
/// `Memory` where an allocation fails.
pub(crate) fn fits_whole(
    alloc: Global,
    n: u128,
    factors: &[&Signed],
    m: u128,
    others: &[&Signed],
) -> Result<bool, Memory>
    ensures { IfOk result (λ r. r ≡ is_fitting_whole expands n (signed_at factors.now) m (signed_at others.now)) }
{
    if fits_polynomial(alloc, n, factors, m, others)? {
        return Ok(true);
    }
    Ok(fits_maximum(n, factors, m, others))
}

// Whether `n` times the first is at most `m` times the second, if each is a polynomial.
fn fits_polynomial(
    alloc: Global,
    n: u128,
    factors: &[&Signed],
    m: u128,
    others: &[&Signed],
) -> Result<bool, Memory>
    ensures { IfOk result (λ r. r ≡ is_fitting_polynomial expands n (polynomial_of_all (signed_at factors.now)) m
        (polynomial_of_all (signed_at others.now))) }
{
    match (whole_polynomial(factors), whole_polynomial(others)) {
        (Whole::Polynomial(f), Whole::Polynomial(h)) => is_weighted_below(alloc, n, f, m, h),
        (Whole::Polynomial(f), Whole::One) => {
            let one = polynomial_one(alloc)?;
            is_weighted_below(alloc, n, f, m, &one)
        }
        (Whole::One, Whole::Polynomial(h)) => {
            let one = polynomial_one(alloc)?;
            is_weighted_below(alloc, n, &one, m, h)
        }
        (Whole::One, Whole::One) => {
            let one = polynomial_one(alloc)?;
            is_weighted_below(alloc, n, &one, m, &one)
        }
        _ => Ok(false),
    }
}

// The polynomial whose positive part is the product of the factors: 1 if there are none, or that of the only factor.
fn whole_polynomial<'a>(factors: &[&'a Signed]) -> Whole<'a>
    ensures { IsWhole (signed_at factors.now) result }
{
    if factors.is_empty() {
        return Whole::One;
    }
    match single(factors) {
        Some(factor) => match polynomial(factor) {
            Some(p) => Whole::Polynomial(p),
            None => Whole::Other,
        },
        None => Whole::Other,
    }
}

// The polynomial 1.
fn polynomial_one(alloc: Global) -> Result<Poly, Memory>
    ensures { IfOk result (λ p. poly_of p ≡ one_polynomial) }
{
    let mut terms = Vec::new(alloc);
    terms.push(Monomial {
        coef: 1,
        vars: Vec::new(alloc),
    })?;
    Ok(Poly { terms })
}

// Whether the number `n` is at most `m` times a maximum, by a constant among its parts.
fn fits_maximum(n: u128, factors: &[&Signed], m: u128, others: &[&Signed]) -> bool
    ensures { result ≡ is_fitting_maximum n (signed_at factors.now) m (signed_at others.now) }
{
    match single(others) {
        Some(other) => factors.is_empty() && is_below_constant(n, m, maximum_parts(other)),
        None => false,
    }
}

// The only factor of a product, if there is just one.
pub(crate) fn single<'a>(factors: &[&'a Signed]) -> Option<&'a Signed>
    ensures { IsSingle (signed_at factors.now) result }
{
    let (first, others) = factors.split_first()?;
    if others.is_empty() {
        Some(*first)
    } else {
        None
    }
}

// The polynomial of a positive part; no other bound has one.
fn polynomial(bound: &Signed) -> Option<&Poly>
    ensures { IsPolynomial (signed_of bound.now) result }
{
    match bound {
        Signed::Part(p) => Some(p),
        Signed::Const(_)
        | Signed::Sum(_)
        | Signed::Prod(_)
        | Signed::Max(_)
        | Signed::Min(_, _)
        | Signed::Quotient(_, _)
        | Signed::Root(_)
        | Signed::Power(_, _) => None,
    }
}

// Whether `n` is at most `m` times a constant among the parts.
fn is_below_constant(n: u128, m: u128, parts: &[Signed]) -> bool
    ensures { result ≡ lies_below_constant n m (parts_of (signeds_of parts.now)) }
{
    for part in parts {
        if is_below_part(n, m, part) {
            return true;
        }
    }
    false
}

// Whether `n` is at most `m` times the part, if the part is a constant.
fn is_below_part(n: u128, m: u128, part: &Signed) -> bool
    ensures { result ≡ lies_below_constant n m (Part (signed_of part.now) NoParts) }
{
    match part {
        Signed::Const(c) => n <= m.saturating_mul(*c),
        Signed::Part(_)
        | Signed::Sum(_)
        | Signed::Prod(_)
        | Signed::Max(_)
        | Signed::Min(_, _)
        | Signed::Quotient(_, _)
        | Signed::Root(_)
        | Signed::Power(_, _) => false,
    }
}
