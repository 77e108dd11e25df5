//! Sums of products of coefficients that may exceed 128 bits before they cancel.

ghost use Rattle.std.specs.Prelude.{◌≡◌, ℕ, ◌+◌, ◌*◌, ◌<◌, ◌≤◌, ◌^◌, pos, ◌+ℤ◌, ◌*ℤ◌, nat_abs, MatchOption};
ghost use Rattle.model.specs.Limits.{coefficient_limit};
ghost use Rattle.poly_terms.specs.Wide.{base, wide_value, IsWithin};

use crate::limits::is_large;

/// An integer in two limbs, `high` times 2^64 and `low`, neither of them normalised.
#[derive(Clone, Copy)]
pub(crate) struct Wide {
    pub(crate) high: i128,
    pub(crate) low: i128,
}

/// 2^64.
const BASE: i128 = 0x1_0000_0000_0000_0000;

/// The product of two coefficients.
pub(crate) fn wide_product(a: i128, b: i128) -> Wide
    requires left { nat_abs a ≤ coefficient_limit }
    requires right { nat_abs b ≤ coefficient_limit }
    ensures value { wide_value result ≡ a *ℤ b }
    ensures within { IsWithin 1 result }
{
    split(narrow_product(a, b))
}

/// The product of two coefficients, which is below 2^126.
pub(crate) fn narrow_product(a: i128, b: i128) -> i128
    requires left { nat_abs a ≤ coefficient_limit }
    requires right { nat_abs b ≤ coefficient_limit }
    ensures value { result ≡ a *ℤ b }
    ensures size { nat_abs result < 2 ^ 126 }
{
    a * b
}

// An integer in two limbs, the lower one below 2^64.
fn split(z: i128) -> Wide
    ensures value { wide_value result ≡ z }
    ensures high { nat_abs result.high * base ≤ nat_abs z }
    ensures low { nat_abs result.low < base }
{
    Wide {
        high: z / BASE,
        low: z % BASE,
    }
}

/// The sum, limb by limb.
pub(crate) fn wide_sum(a: Wide, b: Wide) -> Wide
    requires left { IsWithin (2 ^ 31) a }
    requires right { IsWithin 1 b }
    ensures value { wide_value result ≡ wide_value a +ℤ wide_value b }
    ensures within { (n : ℕ) → IsWithin n a → IsWithin (n + 1) result }
{
    Wide {
        high: a.high + b.high,
        low: a.low + b.low,
    }
}

/// The integer, or `None` if its absolute value is over 2^63-1.
pub(crate) fn narrow(wide: Wide) -> Option<i128>
    requires { IsWithin (2 ^ 32) wide }
    ensures { MatchOption result
        (coefficient_limit < nat_abs (wide_value wide))
        (λ z. (z ≡ wide_value wide) × (nat_abs z ≤ coefficient_limit)) }
{
    let carried = carried(wide);
    if carried.high.unsigned_abs() > 1 {
        return None;
    }
    let whole = whole(carried.high, carried.low);
    if is_large(whole) {
        return None;
    }
    Some(whole)
}

// The same integer with a lower limb below 2^64.
fn carried(wide: Wide) -> Wide
    requires { IsWithin (2 ^ 32) wide }
    ensures value { wide_value result ≡ wide_value wide }
    ensures low { nat_abs result.low < base }
{
    let low = split(wide.low);
    Wide {
        high: wide.high + low.high,
        low: low.low,
    }
}

// The integer of two small limbs.
fn whole(high: i128, low: i128) -> i128
    requires upper { nat_abs high ≤ 1 }
    requires lower { nat_abs low < base }
    ensures { result ≡ high *ℤ pos base +ℤ low }
{
    high * BASE + low
}
