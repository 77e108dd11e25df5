//! Computes the numbers of a column if some may be 2^31 or more in absolute value.

ghost use Rattle.std.specs.Prelude.{◌≡◌, ℕ, ◌<◌, ◌^◌, ℤ, ◌+ℤ◌, ◌*ℤ◌, unsigned_abs, IfOk, IfSome};
ghost use Rattle.sparse_columns.specs.Numbers.{alone, number_of};
ghost use Rattle.sparse_columns.specs.Wide.{wide_number};

use crate::cell::Cell;
use crate::sums::{Sums, add_combined, places_of};
use std::alloc::{AllocError, Global};

/// A number in a row.
#[derive(Clone, Copy, Debug, PartialEq, Eq)]
pub(crate) struct Wide {
    pub(crate) row: u32,
    pub(crate) number: i64,
}

impl Sums for Vec<Wide> {
    ghost use Rattle.std.specs.Prelude.{ℕ, ℤ, ◌-◌, vec_len, vec_capacity};
    ghost use Rattle.sparse_columns.specs.Wide.{wide_number};

    ghost held = { λ wide. wide_number wide.items };

    ghost places = { λ wide. vec_capacity wide - vec_len wide };

    fn add(&mut self, row: u32, number: i64) -> bool {
        self.push_reserved(Wide { row, number });
        true
    }
}

/// The left numbers times one factor plus the right ones times another, row by row. The result always fits.
pub(crate) fn combined(
    alloc: Global,
    left: &[Cell],
    left_factor: i64,
    right: &[Cell],
    right_factor: i64,
) -> Result<Option<Vec<Wide>>, AllocError>
    requires left { unsigned_abs left_factor < 2 ^ 31 }
    requires right { unsigned_abs right_factor < 2 ^ 31 }
    ensures { IfOk result (λ found. IfSome found (λ wide. (i : ℕ) → wide_number wide.items i
        ≡ number_of left.now i *ℤ left_factor +ℤ number_of right.now i *ℤ right_factor)) }
{
    let mut wide = Vec::with_capacity(alloc, places_of(left, right)?)?;
    if !add_combined(&mut wide, left, left_factor, right, right_factor) {
        return Ok(None);
    }
    Ok(Some(wide))
}

/// The product of two numbers below 2^31 in absolute value.
pub fn product(a: i64, b: i64) -> i64
    requires a { unsigned_abs a < 2 ^ 31 }
    requires b { unsigned_abs b < 2 ^ 31 }
    ensures value { result ≡ a *ℤ b }
    ensures bounded { unsigned_abs result < 2 ^ 62 }
{
    a * b
}
