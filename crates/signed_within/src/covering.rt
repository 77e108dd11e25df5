//! Whether one sum of products is at most another, product by product.

ghost use Rattle.std.specs.Prelude.{◌≡◌, ◌-◌, if◌then◌else◌, length, IfOk};
ghost use Rattle.signed_bounds.specs.Safe.{expands_to_squares as expands};
ghost use Rattle.signed_bounds.specs.Covers.{dominated as are_dominated};
ghost use Rattle.signed_bounds.specs.Covers.{covers as is_covering, fits_whole as is_fitting_whole};
ghost use Rattle.signed_within.specs.Tests.{lists_match};
ghost use Rattle.signed_within.specs.Views.{signed_at, products_at, times_of, counted};
ghost use Rattle.signed_within.specs.Taking.{IsUsedUp, AreEqualUsed, IsWithoutWhole, IsWithoutProduct, IsWholeAt};

use crate::matching::factors_match;
use crate::product::{Product, is_comparable};
use crate::test::Test;
use crate::whole::fits_whole;
use poly_terms::Memory;
use std::alloc::Global;

/// The number of times that a product is still needed, and the number left of the product that it was taken from.
#[derive(Clone, Copy)]
struct Taken {
    missing: u128,
    left: u128,
}

/// The number of times that a product is still needed, and the number left of each product that it was taken from.
#[derive(Drop)]
struct Used {
    missing: u128,
    left: Vec<u128>,
}

/// The number left of each of the first products, and of each of the second.
#[derive(Drop)]
struct Remainder {
    missing: Vec<u128>,
    left: Vec<u128>,
}

/// Whether the sum of the first products is at most that of the second: equal products are taken first, and each
/// product left of the first is then taken from those left of the second. Sums that are too large together aren't
/// compared.
///
/// # Errors
///
/// `Memory` where an allocation fails.
pub(crate) fn covers(alloc: Global, ps: &[Product], qs: &[Product]) -> Result<bool, Memory>
    ensures { IfOk result (λ r. r ≡ is_covering expands (products_at ps.now) (products_at qs.now)) }
{
    if !is_comparable(ps, qs) {
        return Ok(false);
    }
    let Remainder { missing, left } = without_equal(alloc, ps, qs)?;
    dominated(alloc, ps, &missing, qs, left)
}

// The number of each product.
fn times(alloc: Global, products: &[Product]) -> Result<Vec<u128>, Memory>
    ensures { IfOk result (λ ns. ns.items ≡ times_of products.now) }
{
    let mut numbers = Vec::new(alloc);
    for product in products {
        numbers.push(product.times)?;
    }
    Ok(numbers)
}

// The numbers left of two lists of products after equal ones were taken.
fn without_equal(alloc: Global, ps: &[Product], qs: &[Product]) -> Result<Remainder, Memory>
    ensures { IfOk result (λ r. AreEqualUsed ps.now qs.now r.missing.items r.left.items) }
{
    let mut missing = Vec::new(alloc);
    let mut left = times(alloc, qs)?;
    for p in ps {
        let used = use_up(alloc, Test::Equal, p, p.times, qs, &left)?;
        missing.push(used.missing)?;
        left = used.left;
    }
    Ok(Remainder { missing, left })
}

// Whether each product left of the first list can be taken from those left of the second.
fn dominated(
    alloc: Global,
    ps: &[Product],
    missing: &[u128],
    qs: &[Product],
    left: Vec<u128>,
) -> Result<bool, Memory>
    requires first { length missing.now ≡ length ps.now }
    requires second { length left.items ≡ length qs.now }
    ensures { IfOk result (λ r. r ≡ are_dominated expands (counted ps.now missing.now) (counted qs.now left.items)) }
{
    let mut rest = left;
    for i in 0..ps.len() {
        let found = without_product(alloc, &ps[i], missing[i], qs, rest)?;
        let Some(others) = found else {
            return Ok(false);
        };
        rest = others;
    }
    Ok(true)
}

// The numbers left of products after n times a product was taken from them; none if that is not possible.
fn without_product(
    alloc: Global,
    p: &Product,
    n: u128,
    qs: &[Product],
    left: Vec<u128>,
) -> Result<Option<Vec<u128>>, Memory>
    requires { length left.items ≡ length qs.now }
    ensures { IfOk result (λ o. IsWithoutProduct n (signed_at p.now.factors.items) qs.now left.items o) }
{
    let used = use_up(alloc, Test::Fitting, p, n, qs, &left)?;
    if used.missing == 0 {
        return Ok(Some(used.left));
    }
    without_whole(alloc, p, n, qs, left)
}

// The numbers left after the first product that as a whole is at least n times the product was used up; none if there
// is none.
fn without_whole(
    alloc: Global,
    p: &Product,
    n: u128,
    qs: &[Product],
    left: Vec<u128>,
) -> Result<Option<Vec<u128>>, Memory>
    requires { length left.items ≡ length qs.now }
    ensures { IfOk result (λ o. IsWithoutWhole n (signed_at p.now.factors.items) qs.now left.items o) }
{
    let mut rest = left;
    match whole_position(alloc, p, n, qs, &rest)? {
        None => Ok(None),
        Some(position) => {
            rest[position] = 0;
            Ok(Some(rest))
        }
    }
}

// Whether `m` times another product as a whole is at least n times the product.
fn is_enough_whole(
    alloc: Global,
    n: u128,
    p: &Product,
    left: u128,
    q: &Product,
) -> Result<bool, Memory>
    ensures { IfOk result (λ r. r
        ≡ is_fitting_whole expands n (signed_at p.now.factors.items) left (signed_at q.now.factors.items)) }
{
    fits_whole(alloc, n, &p.factors, left, &q.factors)
}

// The position of the first product that as a whole is at least n times the product, if there is one.
fn whole_position(
    alloc: Global,
    p: &Product,
    n: u128,
    qs: &[Product],
    left: &[u128],
) -> Result<Option<usize>, Memory>
    requires { length left.now ≡ length qs.now }
    ensures { IfOk result (λ o. IsWholeAt n (signed_at p.now.factors.items) qs.now left.now o) }
{
    for i in 0..qs.len() {
        let is_enough = is_enough_whole(alloc, n, p, left[i], &qs[i])?;
        if is_enough {
            return Ok(Some(i));
        }
    }
    Ok(None)
}

// Takes n times a product from all products whose factors pass the test, the first ones first.
fn use_up(
    alloc: Global,
    test: Test,
    p: &Product,
    n: u128,
    qs: &[Product],
    left: &[u128],
) -> Result<Used, Memory>
    requires { length left.now ≡ length qs.now }
    ensures { IfOk result (λ u. IsUsedUp test n (signed_at p.now.factors.items) qs.now left.now u.left.items u.missing) }
{
    let mut missing = n;
    let mut rest = Vec::new(alloc);
    for i in 0..qs.len() {
        let taken = take_from(alloc, test, p, missing, &qs[i], left[i])?;
        missing = taken.missing;
        rest.push(taken.left)?;
    }
    Ok(Used {
        missing,
        left: rest,
    })
}

// Takes n times a product from the copies of another one, if the factors pass the test.
fn take_from(
    alloc: Global,
    test: Test,
    p: &Product,
    n: u128,
    q: &Product,
    left: u128,
) -> Result<Taken, Memory>
    ensures missing { IfOk result (λ t. t.missing
        ≡ (if lists_match test (signed_at p.now.factors.items) (signed_at q.now.factors.items) then n - left else n)) }
    ensures left { IfOk result (λ t. t.left
        ≡ (if lists_match test (signed_at p.now.factors.items) (signed_at q.now.factors.items) then left - n else left)) }
{
    if n == 0 || !factors_match(alloc, test, &p.factors, &q.factors)? {
        return Ok(Taken { missing: n, left });
    }
    Ok(Taken {
        missing: n.saturating_sub(left),
        left: left.saturating_sub(n),
    })
}
