//! Checks that the numbers of a problem are below 2^31, before any sum is computed from them.

ghost use Rattle.std.specs.Prelude.{ℕ, MatchBool};
ghost use Rattle.simplex_core.specs.Numbers.{AreNumbersSmall, IsOneAbove, AreEntriesBelow, IsOneEntryAbove};

use crate::arithmetic::NUMBER_LIMIT;
use crate::problem::Entry;

/// Whether each number is below 2^31 in absolute value.
pub(crate) fn are_below(numbers: &[i128]) -> bool
    ensures { MatchBool result (AreNumbersSmall numbers.now) (IsOneAbove numbers.now) }
{
    for position in 0..numbers.len() {
        if numbers[position].unsigned_abs() >= NUMBER_LIMIT {
            return false;
        }
    }
    true
}

/// Whether each entry's number is below 2^31 in absolute value.
pub(crate) fn are_entries_below(entries: &[Entry]) -> bool
    ensures { MatchBool result (AreEntriesBelow entries.now) (IsOneEntryAbove entries.now) }
{
    for position in 0..entries.len() {
        if entries[position].value.unsigned_abs() >= NUMBER_LIMIT {
            return false;
        }
    }
    true
}
