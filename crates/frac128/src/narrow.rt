//! Sums, differences and products within the limit.

ghost use Rattle.std.specs.Prelude.{◌≡◌, ◌+ℤ◌, ◌-ℤ◌, ◌*ℤ◌, MatchResult};
ghost use Rattle.frac128.specs.Narrow.{IsNarrow, IsWide};

use std::fmt;

/// A number in a call's formula, before any reduction, has an absolute value over 2^127 - 1.
#[derive(Clone, Copy, Debug, PartialEq, Eq)]
pub struct Range;

impl fmt::Display for Range {
    fn fmt<W: fmt::Write>(&self, f: &mut fmt::Formatter<W>) -> fmt::Result {
        write!(f, "a number of the formula is beyond 127 bits")
    }
}

impl std::error::Error for Range {}

/// The value, if it is within the limit.
fn limited(value: i128) -> Result<i128, Range>
    ensures { MatchResult result (λ v. (v ≡ value) × IsNarrow value) (λ _. IsWide value) }
{
    if value == i128::MIN {
        Err(Range)
    } else {
        Ok(value)
    }
}

/// The product, or `Range` exactly if it is over the limit.
pub(crate) fn product(a: i128, b: i128) -> Result<i128, Range>
    ensures { MatchResult result (λ v. (v ≡ a *ℤ b) × IsNarrow (a *ℤ b)) (λ _. IsWide (a *ℤ b)) }
{
    match a.checked_mul(b) {
        Some(value) => limited(value),
        None => Err(Range),
    }
}

/// The sum, or `Range` exactly if it is over the limit.
pub(crate) fn sum(a: i128, b: i128) -> Result<i128, Range>
    ensures { MatchResult result (λ v. (v ≡ a +ℤ b) × IsNarrow (a +ℤ b)) (λ _. IsWide (a +ℤ b)) }
{
    match a.checked_add(b) {
        Some(value) => limited(value),
        None => Err(Range),
    }
}

/// The difference, or `Range` exactly if it is over the limit.
pub(crate) fn difference(a: i128, b: i128) -> Result<i128, Range>
    ensures { MatchResult result (λ v. (v ≡ a -ℤ b) × IsNarrow (a -ℤ b)) (λ _. IsWide (a -ℤ b)) }
{
    match a.checked_sub(b) {
        Some(value) => limited(value),
        None => Err(Range),
    }
}
