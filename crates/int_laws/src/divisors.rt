//! Greatest common divisors and least common multiples.

ghost use Rattle.std.specs.Prelude.{◌≡◌, ℕ, ◌<◌, ◌≤◌, MatchOption};
ghost use Rattle.std.specs.Int.{IsGcd, ◌∣◌};
ghost use Rattle.int_laws.specs.Divisors.{IsLeastCommonMultiple, HasNoneWithin, LeastCommonMultiplesHold};

/// The greatest common divisor, by Euclid's algorithm.
pub fn greatest_common_divisor(a: u128, b: u128) -> u128
    ensures { IsGcd a b result }
{
    let mut x = a;
    let mut y = b;
    while y != 0 {
        if x <= u128::from(u64::MAX) && y <= u128::from(u64::MAX) {
            return u128::from(small_divisor(x as u64, y as u64));
        }
        let rest = x % y;
        x = y;
        y = rest;
    }
    x
}

/// The greatest common divisor of two numbers of 64 bits.
fn small_divisor(a: u64, b: u64) -> u64
    ensures { IsGcd a b result }
{
    let mut x = a;
    let mut y = b;
    while y != 0 {
        let rest = x % y;
        x = y;
        y = rest;
    }
    x
}

/// The least common multiple of two numbers, if it is within a limit.
pub fn least_common_multiple(a: u128, b: u128, limit: u128) -> Option<u128>
    requires a { 0 < a }
    requires b { 0 < b }
    ensures { MatchOption result (HasNoneWithin a b limit) (λ m. IsLeastCommonMultiple a b m × (m ≤ limit)) }
{
    let rest = b / greatest_common_divisor(a, b);
    if rest > limit / a {
        return None;
    }
    Some(a * rest)
}

/// Two numbers have exactly one least common multiple, and its product with their greatest common divisor is the
/// product of the two.
pub fn least_common_multiples_hold()
    ensures { LeastCommonMultiplesHold }
{}
