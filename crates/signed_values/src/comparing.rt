//! Whether one bound is at most another at lists of start values.

ghost use Rattle.std.specs.Prelude.{◌≡◌, ◌≤◌, true};
ghost use Rattle.signed_bounds.specs.Bounds.{signed_val};
ghost use Rattle.signed_bounds.specs.Views.{signed_of};
ghost use Rattle.signed_values.specs.Starts.{starts_of};
ghost use Rattle.signed_values.specs.Comparing.{IsAtMostAt};

use crate::values::capped_value;
use bound_expr::CAP;
use signed_bounds::Signed;

/// Whether a bound is seen to be at most another one at each list of start values. It isn't seen where a value isn't
/// known, or where the bound is 2^127 or more.
pub fn is_at_most(bound: &Signed, other: &Signed, starts: &[Vec<i128>]) -> bool
    ensures { result ≡ true → IsAtMostAt (starts_of starts.now) (signed_of bound.now) (signed_of other.now) }
{
    match starts.split_first() {
        None => true,
        Some((first, others)) => {
            is_at_most_at(bound, other, first) && is_at_most(bound, other, others)
        }
    }
}

// Whether a bound is seen to be at most another one at a list of start values.
fn is_at_most_at(bound: &Signed, other: &Signed, start: &[i128]) -> bool
    ensures { result ≡ true
        → signed_val (signed_of bound.now) start.now ≤ signed_val (signed_of other.now) start.now }
{
    match (capped_value(bound, start), capped_value(other, start)) {
        (Some(value), Some(most)) => value < CAP && value <= most,
        _ => false,
    }
}
