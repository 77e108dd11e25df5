//! The shut places of the symbols that a set touches.

ghost use Rattle.std.specs.Prelude.{◌≡◌, ℕ, ◌<◌, ◌&&◌, ◌||◌, nat_eq, length, map, false, slice_index_or};
ghost use Rattle.std.specs.List.Sorted.{IsNonDecreasingBy};
ghost use Rattle.cert_types.specs.AnswerViews.{shut_of};
ghost use Rattle.gap_checks.specs.GapBalances.{AreClear, AreShutRows, AreWide, MarksFirst};

use crate::touching::{Touch, touches_below};

// Sets the flag of a place, if it is a place of the symbol.
fn mark(flags: &mut [bool], result_variable: &(u32, u32), symbol: u32)
    requires long { length flags.old ≡ 33 }
    ensures long { length flags.new ≡ 33 }
    ensures each { (i : ℕ) → i < 33 → slice_index_or flags.new i false
        ≡ slice_index_or flags.old i false || (nat_eq result_variable.now.0 symbol && nat_eq result_variable.now.1 i) }
{
    if result_variable.0 != symbol {
        return;
    }
    if result_variable.1 >= 33 {
        return;
    }
    flags[result_variable.1 as usize] = true;
}

// Sets the flag of a place at the first touch of its symbol, if the set touches that symbol.
fn mark_first(rows: &mut [[bool; 33]], touches: &[Touch], result_variable: &(u32, u32))
    requires ordered { IsNonDecreasingBy (λ t. t.symbol) touches.now }
    requires room { length rows.old ≡ length touches.now }
    requires wide { AreWide rows.old }
    ensures { MarksFirst touches.now (shut_of result_variable.now) rows.old rows.new }
{
    let first = touches_below(touches, u64::from(result_variable.0));
    if first < touches.len() {
        mark(&mut rows[first], result_variable, touches[first].symbol);
    }
}

// Clears all flags.
fn clear(rows: &mut [[bool; 33]])
    ensures long { length rows.new ≡ length rows.old }
    ensures wide { AreWide rows.new }
    ensures clear { AreClear rows.new }
{
    for index in 0..rows.len() {
        rows[index] = [false; 33];
    }
}

/// At the first touch of each symbol, sets the flags of exactly those of its places that are shut; there is a flag for
/// place 0 and for each place that a symbol may have. The time is near-linear in the touches and the shut places.
pub(crate) fn mark_shut(rows: &mut [[bool; 33]], touches: &[Touch], shut: &[(u32, u32)])
    requires ordered { IsNonDecreasingBy (λ t. t.symbol) touches.now }
    requires room { length rows.old ≡ length touches.now }
    ensures long { length rows.new ≡ length rows.old }
    ensures shut { AreShutRows touches.now (map shut_of shut.now) rows.new }
{
    clear(rows);
    for result_variable in shut {
        mark_first(rows, touches, result_variable);
    }
}
