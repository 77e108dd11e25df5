//! Whether one bound is at most another by its shape.

ghost use Rattle.std.specs.Prelude.{◌≡◌, IfOk};
ghost use Rattle.signed_bounds.specs.Views.{signed_of, signeds_of, parts_of};
ghost use Rattle.signed_bounds.specs.Safe.{expands_to_squares as expands};
ghost use Rattle.signed_bounds.specs.Fits.{fits as is_fitting, all_fit as are_fitting, fits_some as is_some_fitting};
ghost use Rattle.signed_bounds.specs.Fits.{is_equal as are_equal, factor_fits as is_factor_fitting};
ghost use Rattle.signed_bounds.specs.Fits.{maximum_parts as parts_of_maximum};

use crate::parts::{
    constant, minimum_parts, parts_of_maximum, polynomial, power, product_parts, quotient,
    radicand, sum_parts,
};
use crate::terms::is_below;
use poly_terms::Memory;
use signed_bounds::Signed;
use std::alloc::Global;

/// Whether `a` is at most `b` by its shape.
///
/// # Errors
///
/// `Memory` where an allocation fails.
#[cycle(fits)]
pub fn fits(alloc: Global, a: &Signed, b: &Signed) -> Result<bool, Memory>
    ensures { IfOk result (λ r. r ≡ is_fitting expands (signed_of a.now) (signed_of b.now)) }
{
    match a {
        Signed::Const(m) => match constant(b) {
            Some(n) => Ok(*m <= n),
            None => Ok(false),
        },
        Signed::Part(f) => match polynomial(b) {
            Some(h) => is_below(alloc, f, h),
            None => Ok(false),
        },
        Signed::Sum(parts) => match sum_parts(b) {
            Some(others) => all_fit(alloc, parts, others),
            None => Ok(false),
        },
        Signed::Prod(parts) => match product_parts(b) {
            Some(others) => all_fit(alloc, parts, others),
            None => Ok(false),
        },
        Signed::Max(parts) => match parts_of_maximum(b) {
            Some(others) => all_fit(alloc, parts, others),
            None => Ok(false),
        },
        Signed::Min(first, parts) => match minimum_parts(b) {
            Some((other, others)) => {
                if !fits(alloc, first, other)? {
                    return Ok(false);
                }
                all_fit(alloc, parts, others)
            }
            None => Ok(false),
        },
        Signed::Quotient(part, m) => match quotient(b) {
            Some((other, n)) => {
                if *m != n {
                    return Ok(false);
                }
                fits(alloc, part, other)
            }
            None => Ok(false),
        },
        Signed::Root(part) => match radicand(b) {
            Some(other) => fits(alloc, part, other),
            None => Ok(false),
        },
        Signed::Power(m, part) => match power(b) {
            Some((n, other)) => {
                if *m == 0 || *m > n {
                    return Ok(false);
                }
                fits(alloc, part, other)
            }
            None => Ok(false),
        },
    }
}

// Whether the two lists have the same length, and each part is at most the one at its position.
#[cycle(fits)]
fn all_fit(alloc: Global, parts: &[Signed], others: &[Signed]) -> Result<bool, Memory>
    ensures { IfOk result (λ r. r ≡ are_fitting expands (parts_of (signeds_of parts.now)) (parts_of (signeds_of others.now))) }
{
    let mut left = others;
    for part in parts {
        let Some((other, rest)) = left.split_first() else {
            return Ok(false);
        };
        if !fits(alloc, part, other)? {
            return Ok(false);
        }
        left = rest;
    }
    Ok(left.is_empty())
}

/// Whether each of two bounds is at most the other by its shape.
///
/// # Errors
///
/// `Memory` where an allocation fails.
pub fn is_equal(alloc: Global, a: &Signed, b: &Signed) -> Result<bool, Memory>
    ensures { IfOk result (λ r. r ≡ are_equal expands (signed_of a.now) (signed_of b.now)) }
{
    if !fits(alloc, a, b)? {
        return Ok(false);
    }
    fits(alloc, b, a)
}

/// Whether `a` is at most `b` by its shape, or at most one of the parts of `b` if that is a maximum.
///
/// # Errors
///
/// `Memory` where an allocation fails.
pub fn factor_fits(alloc: Global, a: &Signed, b: &Signed) -> Result<bool, Memory>
    ensures { IfOk result (λ r. r ≡ is_factor_fitting expands (signed_of a.now) (signed_of b.now)) }
{
    if fits(alloc, a, b)? {
        return Ok(true);
    }
    fits_some(alloc, a, maximum_parts(b))
}

// Whether the bound is at most one of the parts by its shape.
fn fits_some(alloc: Global, a: &Signed, parts: &[Signed]) -> Result<bool, Memory>
    ensures { IfOk result (λ r. r ≡ is_some_fitting expands (signed_of a.now) (parts_of (signeds_of parts.now))) }
{
    for part in parts {
        if fits(alloc, a, part)? {
            return Ok(true);
        }
    }
    Ok(false)
}

/// The parts of a maximum; no other bound has any.
pub(crate) fn maximum_parts(b: &Signed) -> &[Signed]
    ensures { parts_of (signeds_of result.now) ≡ parts_of_maximum (signed_of b.now) }
{
    match b {
        Signed::Max(parts) => parts,
        Signed::Const(_)
        | Signed::Part(_)
        | Signed::Sum(_)
        | Signed::Prod(_)
        | Signed::Min(_, _)
        | Signed::Quotient(_, _)
        | Signed::Root(_)
        | Signed::Power(_, _) => &[],
    }
}
