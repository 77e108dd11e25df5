//! The value of a bound, up to 2^127.

ghost use Rattle.std.specs.Prelude.{◌≡◌, ◌<◌, ◌/◌, ◌^◌, min, IfSome};
ghost use Rattle.std.specs.Option.{IsSomeAnd};
ghost use Rattle.bound_expr.specs.Capped.{capped};
ghost use Rattle.bound_expr.specs.Limits.{cap};
ghost use Rattle.signed_bounds.specs.Bounds.{signed_val, signed_sum, signed_product, signed_maximum, signed_minimum};
ghost use Rattle.signed_bounds.specs.Bounds.{whole_root};
ghost use Rattle.signed_bounds.specs.Views.{signed_of, signeds_of, parts_of};

use crate::polynomials::positive_part;
use bound_expr::{CAP, capped_add, capped_multiply, capped_power};
use signed_bounds::Signed;

/// The value of a bound where start argument i is `start[i]`, or 2^127 where the value is greater. `None` where a
/// polynomial passes 128 bits on the way, or a quotient or a root is of 2^127 or more.
///
/// It allocates no memory, and its time doesn't grow with the exponents.
#[cycle(value)]
pub fn capped_value(bound: &Signed, start: &[i128]) -> Option<u128>
    ensures { IfSome result (λ v. v ≡ capped (signed_val (signed_of bound.now) start.now)) }
{
    match bound {
        Signed::Const(c) => Some((*c).min(CAP)),
        Signed::Part(p) => positive_part(p, start),
        Signed::Sum(parts) => capped_sum(parts, start),
        Signed::Prod(parts) => capped_product(parts, start),
        Signed::Max(parts) => capped_maximum(parts, start),
        Signed::Min(first, parts) => lesser_of(
            capped_value(first, start),
            capped_minimum(parts, start),
        ),
        Signed::Quotient(part, divisor) => quotient_of(capped_value(part, start), *divisor),
        Signed::Root(part) => root_of(capped_value(part, start)),
        Signed::Power(base, exponent) => power_of(*base, capped_value(exponent, start)),
    }
}

#[cycle(value)]
fn capped_sum(parts: &[Signed], start: &[i128]) -> Option<u128>
    ensures { IfSome result (λ v. v ≡ capped (signed_sum (parts_of (signeds_of parts.now)) start.now)) }
{
    let mut total = 0;
    for part in parts {
        match capped_value(part, start) {
            Some(value) => total = capped_add(total, value),
            None => return None,
        }
    }
    Some(total)
}

#[cycle(value)]
fn capped_product(parts: &[Signed], start: &[i128]) -> Option<u128>
    ensures { IfSome result (λ v. v ≡ capped (signed_product (parts_of (signeds_of parts.now)) start.now)) }
{
    let mut product = 1;
    for part in parts {
        match capped_value(part, start) {
            Some(value) => product = capped_multiply(product, value),
            None => return None,
        }
    }
    Some(product)
}

#[cycle(value)]
fn capped_maximum(parts: &[Signed], start: &[i128]) -> Option<u128>
    ensures { IfSome result (λ v. v ≡ capped (signed_maximum (parts_of (signeds_of parts.now)) start.now)) }
{
    let mut most = 0u128;
    for part in parts {
        match capped_value(part, start) {
            Some(value) => most = most.max(value),
            None => return None,
        }
    }
    Some(most)
}

// The minimum of 2^127 and the values of the parts.
#[cycle(value)]
fn capped_minimum(parts: &[Signed], start: &[i128]) -> Option<u128>
    ensures { IfSome result (λ v. v ≡ signed_minimum (parts_of (signeds_of parts.now)) cap start.now) }
{
    let mut least = CAP;
    for part in parts {
        match capped_value(part, start) {
            Some(value) => least = least.min(value),
            None => return None,
        }
    }
    Some(least)
}

// The lesser of two values, if both are known.
fn lesser_of(first: Option<u128>, others: Option<u128>) -> Option<u128>
    ensures { IfSome result (λ v. IsSomeAnd first (λ n. IsSomeAnd others (λ m. v ≡ min n m))) }
{
    match (first, others) {
        (Some(n), Some(m)) => Some(n.min(m)),
        _ => None,
    }
}

// The quotient of a value below 2^127, rounded down; by 0 it is 0.
fn quotient_of(value: Option<u128>, divisor: u128) -> Option<u128>
    ensures { IfSome result (λ v. IsSomeAnd value (λ n. (n < cap) × (v ≡ n / divisor))) }
{
    match value {
        Some(n) if n < CAP => Some(n.checked_div(divisor).unwrap_or(0)),
        _ => None,
    }
}

// The square root of a value below 2^127, rounded down.
fn root_of(value: Option<u128>) -> Option<u128>
    ensures { IfSome result (λ v. IsSomeAnd value (λ n. (n < cap) × (v ≡ whole_root n))) }
{
    match value {
        Some(n) if n < CAP => Some(rounded_root(n)),
        _ => None,
    }
}

// The square root of a number, rounded down.
fn rounded_root(n: u128) -> u128
    ensures { result ≡ whole_root n }
{
    n.isqrt()
}

// A base to the power of a value, up to 2^127.
fn power_of(base: u64, exponent: Option<u128>) -> Option<u128>
    ensures { IfSome result (λ v. IsSomeAnd exponent (λ n. v ≡ capped (base ^ n))) }
{
    match exponent {
        Some(n) => Some(capped_power(u128::from(base), n)),
        None => None,
    }
}
