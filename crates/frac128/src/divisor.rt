//! Divides a fraction's numbers by their greatest common divisor.

ghost use Rattle.std.specs.Prelude.{◌≡◌, ◌≢◌, ℕ, pos, ◌*ℤ◌, ◌<ℤ◌, unsigned_abs};
ghost use Rattle.std.specs.Int.{IsGcd, ◌∣◌};
ghost use Rattle.frac128.specs.Narrow.{IsNarrow};

use int_laws::greatest_common_divisor;

/// The greatest common divisor of numerator and denominator, which is at least 1.
fn common_divisor(over: i128, under: i128) -> i128
    requires narrow { IsNarrow under }
    requires nonzero { under ≢ pos 0 }
    ensures divides { IsGcd (unsigned_abs over) (unsigned_abs under) (unsigned_abs result) }
    ensures positive { pos 0 <ℤ result }
{
    greatest_common_divisor(over.unsigned_abs(), under.unsigned_abs()) as i128
}

/// The greatest common divisor of numerator and denominator, with the sign of the denominator.
pub(crate) fn signed_divisor(over: i128, under: i128) -> i128
    requires narrow { IsNarrow under }
    requires nonzero { under ≢ pos 0 }
    ensures divides { IsGcd (unsigned_abs over) (unsigned_abs under) (unsigned_abs result) }
    ensures same_sign { pos 0 <ℤ (under *ℤ result) }
{
    let divisor = common_divisor(over, under);
    if under < 0 { -divisor } else { divisor }
}

/// The quotient by a divisor.
pub(crate) fn exact_quotient(a: i128, divisor: i128) -> i128
    requires narrow { IsNarrow a }
    requires nonzero { divisor ≢ pos 0 }
    requires divides { unsigned_abs divisor ∣ unsigned_abs a }
    ensures { result *ℤ divisor ≡ a }
{
    if divisor == 1 {
        return a;
    }
    a / divisor
}
