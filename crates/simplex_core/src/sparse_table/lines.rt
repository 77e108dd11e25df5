//! Arithmetic on the lines of a table, within the limit on numbers.

ghost use Rattle.std.specs.Prelude.{◌≡◌, ℕ, pos, ◌<ℤ◌, IfOk, IfErr, Ok, MatchBool};
ghost use Rattle.sparse_rows.specs.Rows.{fraction_at};
ghost use Rattle.simplex_core.specs.Sizes.{IsBelow};
ghost use Rattle.simplex_core.specs.Lines.{IsLineBelow, HasLargeEntry, IsLineDivided};
ghost use Rattle.simplex_core.specs.Cells.{IsLessMultiple};

use crate::arithmetic::{difference, is_small, quotient};
use frac128::Frac;
use sparse_rows::{SparseError, SparseRow};
use std::alloc::{AllocError, Global};

/// Whether each number of a line is below 2^31.
pub(super) fn is_line_small(line: &SparseRow) -> bool
    ensures { MatchBool result (IsLineBelow 31 line.now) (HasLargeEntry line.now) }
{
    for index in 0..line.len() {
        let (_, number) = line.entry(index);
        if !is_small(number) {
            return false;
        }
    }
    true
}

/// A line divided by a number above 0. Error: memory ran out.
pub(super) fn divided(alloc: Global, line: &SparseRow, by: Frac) -> Result<SparseRow, AllocError>
    requires small { IsLineBelow 31 line.now }
    requires by_small { IsBelow 31 by }
    requires positive { pos 0 <ℤ by.num }
    ensures divided { IfOk result (IsLineDivided line.now by) }
    ensures bounded { IfOk result (IsLineBelow 62) }
{
    let inverse = quotient(Frac::whole(1), by);
    added(SparseRow::zeros(alloc).plus_multiple(alloc, inverse, line))
}

/// A line less a multiple of another. Error: memory ran out.
pub(super) fn cleared(
    alloc: Global,
    line: &SparseRow,
    factor: Frac,
    other: &SparseRow,
) -> Result<SparseRow, AllocError>
    requires small { IsLineBelow 31 line.now }
    requires factor_small { IsBelow 31 factor }
    requires bounded { IsLineBelow 62 other.now }
    ensures { IfOk result (λ new. (j : ℕ)
        → IsLessMultiple (fraction_at line.now j) factor (fraction_at other.now j) (fraction_at new j)) }
{
    let by = difference(Frac::whole(0), factor);
    added(line.plus_multiple(alloc, by, other))
}

/// The sum of lines, of which no number is out of range. Error: memory ran out.
fn added(sum: Result<SparseRow, SparseError>) -> Result<SparseRow, AllocError>
    requires { IfErr sum (λ e. e ≡ SparseError.Memory) }
    ensures { IfOk result (λ line. sum ≡ Ok line) }
{
    match sum {
        Ok(line) => Ok(line),
        Err(error) => Err(memory_of(error)),
    }
}

/// The error that memory ran out, the only one that can come here.
fn memory_of(error: SparseError) -> AllocError
    requires { error ≡ SparseError.Memory }
{
    match error {
        SparseError::Memory => AllocError,
        SparseError::Range { .. } => unreachable!(),
    }
}
