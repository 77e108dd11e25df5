//! Fractions over their least common denominator.

ghost use Rattle.std.specs.Prelude.{◌≡◌, ℕ, ◌^◌, ◌*◌, ◌<◌, ◌≤◌, ℤ, pos, ◌*ℤ◌, unsigned_abs, length, MatchOption, IfOk};
ghost use Rattle.std.specs.Int.{◌∣◌};
ghost use Rattle.linear_forms.specs.Limits.{certificate_limit};
ghost use Rattle.simplex_core.specs.Scaling.{IsLeastCommon, HasNoCommonWithin, AreOver, AreWithin, AreScaled};
ghost use Rattle.simplex_core.specs.Scaling.{IsNumberOver, HasNoneScaled, HasNumberOver};

use frac128::Frac;
use int_laws::least_common_multiple;
use std::alloc::{AllocError, Global};

/// Integer numerators over their least common denominator.
#[derive(Debug, Drop, PartialEq, Eq)]
pub struct Numerators {
    /// The numerators.
    pub numbers: Vec<i64>,
    /// The least common denominator.
    pub den: u128,
}

/// The fractions over their least common denominator, if that and the numbers are within their limits.
pub(crate) fn scale_by_least(
    alloc: Global,
    fractions: &[Frac],
    den_limit: u128,
    limit: u64,
) -> Result<Option<Numerators>, AllocError>
    requires den_limit { (0 < den_limit) × (den_limit < 2 ^ 127) }
    requires limit { limit ≤ certificate_limit }
    ensures { IfOk result (λ answer. MatchOption answer (HasNoneScaled fractions.now den_limit limit)
        (λ s. AreScaled fractions.now s.numbers.items s.den × AreWithin limit (length s.numbers.items) s.numbers.items
        × (s.den ≤ den_limit))) }
{
    let Some(den) = least_common_denominator(fractions, den_limit) else {
        return Ok(None);
    };
    match numbers_over(alloc, fractions, den, limit)? {
        None => Ok(None),
        Some(numbers) => Ok(Some(Numerators { numbers, den })),
    }
}

/// The least common denominator, if it is within the limit.
fn least_common_denominator(fractions: &[Frac], limit: u128) -> Option<u128>
    requires { 0 < limit }
    ensures { MatchOption result (HasNoCommonWithin fractions.now (length fractions.now) limit)
        (λ n. IsLeastCommon fractions.now (length fractions.now) n × (n ≤ limit)) }
{
    let mut den = 1;
    for position in 0..fractions.len() {
        den = least_common_multiple(den, fractions[position].den.unsigned_abs(), limit)?;
    }
    Some(den)
}

/// The numerators over a common denominator, if each is within the limit.
fn numbers_over(
    alloc: Global,
    fractions: &[Frac],
    den: u128,
    limit: u64,
) -> Result<Option<Vec<i64>>, AllocError>
    requires common { IsLeastCommon fractions.now (length fractions.now) den }
    requires den_limit { den < 2 ^ 127 }
    requires limit { limit ≤ certificate_limit }
    ensures { IfOk result (λ answer. MatchOption answer (HasNumberOver fractions.now den limit)
        (λ numbers. (length numbers.items ≡ length fractions.now)
        × AreOver fractions.now (length fractions.now) numbers.items den
        × AreWithin limit (length fractions.now) numbers.items)) }
{
    let mut numbers = Vec::with_capacity(alloc, fractions.len())?;
    for position in 0..fractions.len() {
        match number_over(fractions[position], den, limit) {
            None => return Ok(None),
            Some(number) => numbers.push(number)?,
        }
    }
    Ok(Some(numbers))
}

/// The numerator of a fraction over a multiple of its denominator, if it is within the limit.
fn number_over(number: Frac, den: u128, limit: u64) -> Option<i64>
    requires positive { 0 < den }
    requires den_limit { den < 2 ^ 127 }
    requires divides { unsigned_abs number.den ∣ den }
    requires limit { limit ≤ certificate_limit }
    ensures { MatchOption result (IsNumberOver number den limit)
        (λ n. (n *ℤ number.den ≡ number.num *ℤ pos den) × (unsigned_abs n ≤ limit)) }
{
    let times = den / number.den.unsigned_abs();
    if number.num.unsigned_abs() > u128::from(limit) / times {
        return None;
    }
    Some(narrow_product(number.num, times))
}

/// A product that is within the limit of certificates in absolute value.
fn narrow_product(number: i128, times: u128) -> i64
    requires times { times < 2 ^ 127 }
    requires narrow { unsigned_abs number * times ≤ certificate_limit }
    ensures { result ≡ number *ℤ pos times }
{
    (number * times as i128) as i64
}
