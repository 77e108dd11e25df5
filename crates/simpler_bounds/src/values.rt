//! The value of a bound at start values, as the search judges it: too large values count as the greatest number.

use poly_terms::{Monomial, Poly};
use signed_bounds::Signed;

/// The value of a bound, or the greatest number where it is too large.
#[cycle(values)]
pub fn judged_value(bound: &Signed, start: &[i128]) -> u128 {
    match bound {
        Signed::Const(c) => *c,
        Signed::Part(p) => part_value(p, start),
        Signed::Sum(parts) => sum_value(parts, start),
        Signed::Prod(parts) => product_value(parts, start),
        Signed::Max(parts) => greatest_value(parts, start),
        Signed::Min(first, parts) => judged_value(first, start).min(least_value(parts, start)),
        Signed::Quotient(part, divisor) => {
            judged_value(part, start).checked_div(*divisor).unwrap_or(0)
        }
        Signed::Root(part) => judged_value(part, start).isqrt(),
        Signed::Power(base, exponent) => power_value(*base, judged_value(exponent, start)),
    }
}

#[cycle(values)]
fn sum_value(parts: &[Signed], start: &[i128]) -> u128 {
    let mut sum = 0u128;
    for part in parts {
        sum = sum.saturating_add(judged_value(part, start));
    }
    sum
}

#[cycle(values)]
fn product_value(parts: &[Signed], start: &[i128]) -> u128 {
    let mut product = 1u128;
    for part in parts {
        product = product.saturating_mul(judged_value(part, start));
    }
    product
}

#[cycle(values)]
fn greatest_value(parts: &[Signed], start: &[i128]) -> u128 {
    let mut most = 0u128;
    for part in parts {
        most = most.max(judged_value(part, start));
    }
    most
}

#[cycle(values)]
fn least_value(parts: &[Signed], start: &[i128]) -> u128 {
    let mut least = u128::MAX;
    for part in parts {
        least = least.min(judged_value(part, start));
    }
    least
}

fn power_value(base: u64, exponent: u128) -> u128 {
    match u32::try_from(exponent) {
        Ok(exponent) => u128::from(base).saturating_pow(exponent),
        Err(_) => u128::MAX,
    }
}

// The positive part of a polynomial, or the greatest number where a value is too large.
fn part_value(p: &Poly, start: &[i128]) -> u128 {
    let mut value = 0i128;
    for term in &p.terms {
        let Some(addend) = monomial_value(term, start) else {
            return u128::MAX;
        };
        let Some(sum) = value.checked_add(addend) else {
            return u128::MAX;
        };
        value = sum;
    }
    u128::try_from(value).unwrap_or(0)
}

// The value of a monomial, where it is within 128 bits.
fn monomial_value(term: &Monomial, start: &[i128]) -> Option<i128> {
    let mut value = term.coef;
    for variable in &term.vars {
        value = value.checked_mul(start.get(*variable as usize).copied()?)?;
    }
    Some(value)
}
