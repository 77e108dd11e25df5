//! The numbers of products that a bound is multiplied out into.

ghost use Rattle.std.specs.Prelude.{◌≡◌, ◌*◌, ◌-◌, ◌^◌, min};
ghost use Rattle.signed_bounds.specs.Views.{signed_of, signeds_of, parts_of};
ghost use Rattle.signed_bounds.specs.Products.{product_count as count_of, product_count_of_sum as count_of_sum};
ghost use Rattle.signed_bounds.specs.Products.{product_count_of_product as count_of_product, number_sum as sum_of};
ghost use Rattle.signed_bounds.specs.Products.{number_sum_of_sum as sum_of_sum, number_sum_of_product as sum_of_product};
ghost use Rattle.signed_bounds.specs.Products.{is_multipliable as is_limited, at_least_1 as one_at_least};
ghost use Rattle.signed_bounds.specs.Products.{is_expandable as are_few};

use crate::constants::constant_part;
use signed_bounds::{CONSTANT_LIMIT, EXPANSION_LIMIT, PRODUCT_LIMIT, Signed};

/// Whether a bound is multiplied out within the limits: into at most `PRODUCT_LIMIT` products, of which the number times
/// that of the bound's nodes is at most `EXPANSION_LIMIT`, and with numbers that, times `times`, are at most
/// `CONSTANT_LIMIT`.
pub fn is_multipliable(times: u128, bound: &Signed) -> bool
    ensures { result ≡ is_limited times (signed_of bound.now) }
{
    is_expandable(bound) && number_sum(bound).saturating_mul(times) <= CONSTANT_LIMIT
}

// Whether a bound is multiplied out into at most `PRODUCT_LIMIT` products, and so that their number times that of its
// nodes is at most `EXPANSION_LIMIT`.
fn is_expandable(bound: &Signed) -> bool
    ensures { result ≡ are_few (signed_of bound.now) }
{
    let count = product_count(bound);
    count <= PRODUCT_LIMIT && count.saturating_mul(bound.node_count()) <= EXPANSION_LIMIT
}

// The number of products that a bound is multiplied out into, or the maximum number of its type if that is greater.
#[cycle(count)]
fn product_count(bound: &Signed) -> u64
    ensures { result ≡ min (count_of (signed_of bound.now)) (2 ^ 64 - 1) }
{
    match bound {
        Signed::Sum(parts) => count_in_sum(parts).max(1),
        Signed::Prod(parts) => count_in_product(parts),
        Signed::Const(_)
        | Signed::Part(_)
        | Signed::Max(_)
        | Signed::Min(_, _)
        | Signed::Quotient(_, _)
        | Signed::Root(_)
        | Signed::Power(_, _) => 1,
    }
}

#[cycle(count)]
fn count_in_sum(parts: &[Signed]) -> u64
    ensures { result ≡ min (count_of_sum (parts_of (signeds_of parts.now))) (2 ^ 64 - 1) }
{
    let mut count = 0u64;
    for part in parts {
        count = count.saturating_add(product_count(part));
    }
    count
}

#[cycle(count)]
fn count_in_product(parts: &[Signed]) -> u64
    ensures { result ≡ min (count_of_product (parts_of (signeds_of parts.now))) (2 ^ 64 - 1) }
{
    let mut count = 1u64;
    for part in parts {
        count = count.saturating_mul(product_count(part));
    }
    count
}

// The sum of the numbers of these products, or the maximum number of its type if that is greater.
#[cycle(sum)]
fn number_sum(bound: &Signed) -> u128
    ensures { result ≡ min (sum_of (signed_of bound.now)) (2 ^ 128 - 1) }
{
    match bound {
        Signed::Const(c) => (*c).max(1),
        Signed::Part(p) => at_least_1(constant_part(p)),
        Signed::Sum(parts) => number_sum_in_sum(parts).max(1),
        Signed::Prod(parts) => number_sum_in_product(parts),
        Signed::Max(_)
        | Signed::Min(_, _)
        | Signed::Quotient(_, _)
        | Signed::Root(_)
        | Signed::Power(_, _) => 1,
    }
}

// A number; 0, or no number, counts as 1.
fn at_least_1(number: Option<u128>) -> u128
    ensures { result ≡ one_at_least number }
{
    match number {
        Some(n) => n.max(1),
        None => 1,
    }
}

#[cycle(sum)]
fn number_sum_in_sum(parts: &[Signed]) -> u128
    ensures { result ≡ min (sum_of_sum (parts_of (signeds_of parts.now))) (2 ^ 128 - 1) }
{
    let mut sum = 0u128;
    for part in parts {
        sum = sum.saturating_add(number_sum(part));
    }
    sum
}

#[cycle(sum)]
fn number_sum_in_product(parts: &[Signed]) -> u128
    ensures { result ≡ min (sum_of_product (parts_of (signeds_of parts.now))) (2 ^ 128 - 1) }
{
    let mut product = 1u128;
    for part in parts {
        product = product.saturating_mul(number_sum(part));
    }
    product
}
