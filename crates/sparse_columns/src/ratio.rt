//! The ratio of two numbers in a row.

ghost use Rattle.std.specs.Prelude.{◌≡◌, ◌≢◌, ◌<◌, ◌^◌, pos, ◌*ℤ◌, ◌<ℤ◌, unsigned_abs};
ghost use Rattle.std.specs.Int.{IsGcd, ◌∣◌};
ghost use Rattle.sparse_columns.specs.Ratios.{IsRatio};

use int_laws::greatest_common_divisor;

/// A ratio of two numbers below 2^31 in absolute value; the lower one is above 0.
#[derive(Clone, Copy, Debug, PartialEq, Eq)]
pub(crate) struct Ratio {
    pub(crate) over: i64,
    pub(crate) under: i64,
    ghost over_small: { unsigned_abs over < 2 ^ 31 },
    ghost under_small: { unsigned_abs under < 2 ^ 31 },
    ghost positive: { pos 0 <ℤ under },
}

impl Ratio {
    /// The ratio of a number to one above 0.
    pub(crate) fn new(number: i64, pivot: i64) -> Ratio
        requires number { unsigned_abs number < 2 ^ 31 }
        requires pivot { unsigned_abs pivot < 2 ^ 31 }
        requires positive { pos 0 <ℤ pivot }
        ensures { IsRatio number pivot result.over result.under }
    {
        if pivot == 1 {
            return Ratio {
                over: number,
                under: 1,
            };
        }
        let divisor = common_divisor(number, pivot);
        Ratio {
            over: exact_quotient(number, divisor),
            under: exact_quotient(pivot, divisor),
        }
    }
}

/// The greatest common divisor of a number and one above 0, which is at least 1.
pub(crate) fn common_divisor(number: i64, pivot: i64) -> i64
    requires positive { pos 0 <ℤ pivot }
    ensures divides { IsGcd (unsigned_abs number) (unsigned_abs pivot) (unsigned_abs result) }
    ensures positive { pos 0 <ℤ result }
{
    let divisor = greatest_common_divisor(
        u128::from(number.unsigned_abs()),
        u128::from(pivot.unsigned_abs()),
    );
    divisor as i64
}

/// The quotient by a divisor.
fn exact_quotient(a: i64, divisor: i64) -> i64
    requires bounded { unsigned_abs a < 2 ^ 31 }
    requires positive { pos 0 <ℤ divisor }
    requires divides { unsigned_abs divisor ∣ unsigned_abs a }
    ensures exact { result *ℤ divisor ≡ a }
    ensures bounded { unsigned_abs result < 2 ^ 31 }
{
    a / divisor
}
