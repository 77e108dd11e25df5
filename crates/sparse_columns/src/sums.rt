//! The sums of multiples of two columns' numbers.

ghost use Rattle.std.specs.Prelude.{◌≡◌, ℕ, ◌<◌, ◌^◌, ℤ, ◌+ℤ◌, ◌*ℤ◌, unsigned_abs, IfOk, true, ◌≤◌, ◌+◌, length};
ghost use Rattle.sparse_columns.specs.Numbers.{alone, number_of};

use crate::cell::Cell;
use crate::wide::product;
use std::alloc::AllocError;

/// An accumulator of sums, row by row. Its memory is reserved beforehand, so that none is allocated while sums are
/// added.
pub(crate) trait Sums {
    ghost held: { Self → ℕ → ℤ };

    ghost places: { Self → ℕ };

    /// Adds a number in a row. Returns whether it fits.
    fn add(&mut self, row: u32, number: i64) -> bool
        requires { 0 < places self.old }
        ensures added { result ≡ true → (i : ℕ) → held self.new i ≡ held self.old i +ℤ alone row number i }
        ensures places { places self.old ≤ places self.new + 1 };
}

/// Adds the left numbers times one factor and the right ones times another, row by row. Returns whether all fit.
pub(crate) fn add_combined<S: Sums>(
    sums: &mut S,
    left: &[Cell],
    left_factor: i64,
    right: &[Cell],
    right_factor: i64,
) -> bool
    requires places { length left.now + length right.now ≤ S.places sums.old }
    requires left { unsigned_abs left_factor < 2 ^ 31 }
    requires right { unsigned_abs right_factor < 2 ^ 31 }
    ensures { result ≡ true → (i : ℕ) → S.held sums.new i
        ≡ S.held sums.old i +ℤ (number_of left.now i *ℤ left_factor +ℤ number_of right.now i *ℤ right_factor) }
{
    let mut left_rest = left;
    let mut right_rest = right;
    'merging: loop {
        let Some((a, behind_a)) = left_rest.split_first() else {
            break;
        };
        let Some((b, behind_b)) = right_rest.split_first() else {
            break;
        };
        if a.row < b.row {
            if !add_multiple(sums, *a, left_factor) {
                return false;
            }
            left_rest = behind_a;
        } else if b.row < a.row {
            if !add_multiple(sums, *b, right_factor) {
                return false;
            }
            right_rest = behind_b;
        } else {
            if !add_sum(sums, *a, left_factor, *b, right_factor) {
                return false;
            }
            left_rest = behind_a;
            right_rest = behind_b;
        }
    }
    if !add_multiples(sums, left_rest, left_factor) {
        return false;
    }
    add_multiples(sums, right_rest, right_factor)
}

/// An upper bound on the number of places that the sums of two lists of numbers take.
pub(crate) fn places_of(left: &[Cell], right: &[Cell]) -> Result<usize, AllocError>
    ensures { IfOk result (λ count. count ≡ length left.now + length right.now) }
{
    match left.len().checked_add(right.len()) {
        Some(count) => Ok(count),
        None => Err(AllocError),
    }
}

/// Adds a multiple of a number. Returns whether it fits.
fn add_multiple<S: Sums>(sums: &mut S, cell: Cell, factor: i64) -> bool
    requires places { 0 < S.places sums.old }
    requires factor { unsigned_abs factor < 2 ^ 31 }
    ensures added { result ≡ true → (i : ℕ)
        → S.held sums.new i ≡ S.held sums.old i +ℤ alone cell.row (cell.number *ℤ factor) i }
    ensures places { S.places sums.old ≤ S.places sums.new + 1 }
{
    sums.add(cell.row, product(cell.value(), factor))
}

/// Adds the sum of the multiples of two numbers in the first one's row. Returns whether it fits.
fn add_sum<S: Sums>(sums: &mut S, a: Cell, a_factor: i64, b: Cell, b_factor: i64) -> bool
    requires places { 0 < S.places sums.old }
    requires a { unsigned_abs a_factor < 2 ^ 31 }
    requires b { unsigned_abs b_factor < 2 ^ 31 }
    ensures added { result ≡ true → (i : ℕ) → S.held sums.new i
        ≡ S.held sums.old i +ℤ alone a.row (a.number *ℤ a_factor +ℤ b.number *ℤ b_factor) i }
    ensures places { S.places sums.old ≤ S.places sums.new + 1 }
{
    sums.add(a.row, sum_of_multiples(a, a_factor, b, b_factor))
}

/// The sum of the multiples of two numbers.
fn sum_of_multiples(a: Cell, a_factor: i64, b: Cell, b_factor: i64) -> i64
    requires a { unsigned_abs a_factor < 2 ^ 31 }
    requires b { unsigned_abs b_factor < 2 ^ 31 }
    ensures { result ≡ a.number *ℤ a_factor +ℤ b.number *ℤ b_factor }
{
    product(a.value(), a_factor) + product(b.value(), b_factor)
}

/// Adds multiples of numbers. Returns whether all fit.
fn add_multiples<S: Sums>(sums: &mut S, cells: &[Cell], factor: i64) -> bool
    requires places { length cells.now ≤ S.places sums.old }
    requires factor { unsigned_abs factor < 2 ^ 31 }
    ensures added { result ≡ true → (i : ℕ)
        → S.held sums.new i ≡ S.held sums.old i +ℤ number_of cells.now i *ℤ factor }
    ensures places { S.places sums.old ≤ S.places sums.new + length cells.now }
{
    for cell in cells {
        if !add_multiple(sums, *cell, factor) {
            return false;
        }
    }
    true
}
