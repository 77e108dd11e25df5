//! Computes the numbers of a column if each is below 2^31 in absolute value.

ghost use Rattle.std.specs.Prelude.{◌≡◌, ℕ, ◌<◌, ◌^◌, ℤ, ◌+ℤ◌, ◌*ℤ◌, unsigned_abs, IfOk, IfSome};
ghost use Rattle.sparse_columns.specs.Numbers.{number, number_of};

use crate::cell::Cell;
use crate::cells::Cells;
use crate::sums::{Sums, add_combined, places_of};
use std::alloc::{AllocError, Global};

impl Sums for Cells {
    ghost use Rattle.sparse_columns.specs.Numbers.{number, places};

    ghost held = { λ cells. number cells };

    ghost places = { λ cells. places cells };

    fn add(&mut self, row: u32, number: i64) -> bool {
        self.push(row, number)
    }
}

/// The left numbers times one factor plus the right ones times another, row by row. None if a sum is too large.
pub(crate) fn combined_cells(
    alloc: Global,
    left: &[Cell],
    left_factor: i64,
    right: &[Cell],
    right_factor: i64,
) -> Result<Option<Cells>, AllocError>
    requires left { unsigned_abs left_factor < 2 ^ 31 }
    requires right { unsigned_abs right_factor < 2 ^ 31 }
    ensures { IfOk result (λ found. IfSome found (λ cells. (i : ℕ) → number cells i
        ≡ number_of left.now i *ℤ left_factor +ℤ number_of right.now i *ℤ right_factor)) }
{
    let mut cells = Cells::with_capacity(alloc, places_of(left, right)?)?;
    if !add_combined(&mut cells, left, left_factor, right, right_factor) {
        return Ok(None);
    }
    Ok(Some(cells))
}
