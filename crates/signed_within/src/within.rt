//! The comparison `within`: whether each n with n * den at most one bound is at most another.

ghost use Rattle.std.specs.Prelude.{◌≡◌, ◌&&◌, ◌==◌, ◌*◌, ◌≤◌, ◌<◌, [], take, drop, length, IfOk};
ghost use Rattle.signed_bounds.specs.Limits.{constant_limit};
ghost use Rattle.signed_bounds.specs.Views.{signed_of};
ghost use Rattle.signed_bounds.specs.Safe.{expands_to_squares as expands};
ghost use Rattle.signed_bounds.specs.Fits.{fits as fits_by_shape};
ghost use Rattle.signed_bounds.specs.Products.{times_sum};
ghost use Rattle.signed_bounds.specs.Within.{within, is_covered as is_covered_by_products, is_covered_rounded as is_rounded};
ghost use Rattle.signed_bounds.specs.Within.{is_covered_by_quotient as is_quotient};
ghost use Rattle.signed_bounds.specs.Within.{quotient_count as count_of_quotients};
ghost use Rattle.signed_within.specs.Views.{products_at};
ghost use Rattle.signed_within.specs.Numerators.{is_covered_at};

use crate::covering::covers;
use crate::fitting::fits;
use crate::multiplying::{products_of, push_scaled};
use crate::product::{Product, number, numerator, scaled_once_less};
use crate::sizes::is_multipliable;
use poly_terms::Memory;
use signed_bounds::{QUOTIENT_LIMIT, Signed};
use std::alloc::Global;

/// Whether each n with n * `den` at most `a` is at most `b`, at all start values, as the comparison `within` decides
/// it: if `den` is 1, by the shape of both bounds; or both are multiplied out into sums of products, and the products of
/// `a` have to be found among those of `b`, `den` times, with `den` - 1 more for rounding, or among those of one of at
/// most `QUOTIENT_LIMIT` quotients by `den` in `b`.
///
/// `true` means that it is so; `false` doesn't mean that it isn't.
///
/// # Errors
///
/// `Memory` where an allocation fails.
pub fn is_within(alloc: Global, den: u128, a: &Signed, b: &Signed) -> Result<bool, Memory>
    requires { 1 ≤ den }
    ensures { IfOk result (λ r. r ≡ within expands den (signed_of a.now) (signed_of b.now)) }
{
    if fits_once(alloc, den, a, b)? {
        return Ok(true);
    }
    is_covered(alloc, den, a, b)
}

// Whether `den` is 1 and `a` is at most `b` by its shape.
fn fits_once(alloc: Global, den: u128, a: &Signed, b: &Signed) -> Result<bool, Memory>
    ensures { IfOk result (λ r. r ≡ ((den == 1) && fits_by_shape expands (signed_of a.now) (signed_of b.now))) }
{
    if den != 1 {
        return Ok(false);
    }
    fits(alloc, a, b)
}

// Whether so it is by the products of both.
fn is_covered(alloc: Global, den: u128, a: &Signed, b: &Signed) -> Result<bool, Memory>
    requires { 1 ≤ den }
    ensures { IfOk result (λ r. r ≡ is_covered_by_products expands den (signed_of a.now) (signed_of b.now)) }
{
    if !is_multipliable(1, a) || !is_multipliable(den, b) {
        return Ok(false);
    }
    let ps = products_of(alloc, a)?;
    let qs = products_of(alloc, b)?;
    if is_covered_rounded(alloc, den, &ps, &qs)? {
        return Ok(true);
    }
    if quotient_count(den, &qs) > QUOTIENT_LIMIT {
        return Ok(false);
    }
    is_covered_by_quotient(alloc, den, &ps, &qs)
}

// The number of products that are just a quotient by `den`, and occur at least once.
fn quotient_count(den: u128, qs: &[Product]) -> usize
    ensures { result ≡ count_of_quotients den (products_at qs.now) }
{
    let mut count = 0;
    for q in qs {
        if numerator(den, q).is_some() {
            count += 1;
        }
    }
    count
}

// Whether the first sum is at most `den` times the second and `den` - 1.
fn is_covered_rounded(
    alloc: Global,
    den: u128,
    ps: &[Product],
    qs: &[Product],
) -> Result<bool, Memory>
    requires { den * times_sum (products_at qs.now) ≤ constant_limit }
    ensures { IfOk result (λ r. r ≡ is_rounded expands den (products_at ps.now) (products_at qs.now)) }
{
    let mut others = Vec::new(alloc);
    others.push(number(alloc, den.saturating_sub(1)))?;
    push_scaled(alloc, &mut others, den, qs)?;
    covers(alloc, ps, &others)
}

// Whether the first sum is at most the numerator of a quotient by `den` among the products of the second, and `den`
// times all others.
fn is_covered_by_quotient(
    alloc: Global,
    den: u128,
    ps: &[Product],
    qs: &[Product],
) -> Result<bool, Memory>
    requires { den * times_sum (products_at qs.now) ≤ constant_limit }
    ensures { IfOk result (λ r. r ≡ is_quotient expands den (products_at ps.now) [] (products_at qs.now)) }
{
    for i in 0..qs.len() {
        let is_covered = is_covered_from(alloc, den, ps, qs, i)?;
        if is_covered {
            return Ok(true);
        }
    }
    Ok(false)
}

// Whether the product at a position is a quotient by `den`, and the sum is covered by its numerator and `den` times all
// others.
fn is_covered_from(
    alloc: Global,
    den: u128,
    ps: &[Product],
    qs: &[Product],
    position: usize,
) -> Result<bool, Memory>
    requires inside { position < length qs.now }
    requires limited { den * times_sum (products_at qs.now) ≤ constant_limit }
    ensures { IfOk result (λ r. r ≡ is_covered_at den (products_at ps.now) (products_at (take position qs.now))
        (products_at (drop position qs.now))) }
{
    let q = &qs[position];
    let Some(part) = numerator(den, q) else {
        return Ok(false);
    };
    let is_small = is_multipliable(1, part);
    if !is_small {
        return Ok(false);
    }
    let mut others = products_of(alloc, part)?;
    push_scaled(alloc, &mut others, den, &qs[..position])?;
    let less = scaled_once_less(alloc, den, q)?;
    others.push(less)?;
    push_scaled(alloc, &mut others, den, &qs[position + 1..])?;
    covers(alloc, ps, &others)
}
