//! Sums of the numbers of cells.

ghost use Rattle.std.specs.Prelude.{◌≡◌, ◌+ℤ◌, IfSome};
ghost use Rattle.sparse_columns.specs.Numbers.{total_of};

use crate::cell::Cell;

/// The sum of the numbers of cells. None if an intermediate sum overflows.
pub(crate) fn sum_of(cells: &[Cell]) -> Option<i64>
    ensures { IfSome result (λ sum. sum ≡ total_of cells.now) }
{
    let mut sum = 0;
    for cell in cells {
        let Some(next) = plus(sum, cell.value()) else {
            return None;
        };
        sum = next;
    }
    Some(sum)
}

/// The sum of two numbers. None if it overflows.
fn plus(a: i64, b: i64) -> Option<i64>
    ensures { IfSome result (λ sum. sum ≡ a +ℤ b) }
{
    a.checked_add(b)
}
