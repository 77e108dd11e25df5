//! Checks whether the numbers are in range.

ghost use Rattle.std.specs.Prelude.{◌+◌, ◌<◌, MatchBool};
ghost use Rattle.simplex_core.specs.Cells.{AreSmall, IsRowBelow, HasLarge, HasLargeIn};

use crate::arithmetic::is_small;
use crate::sparse_table::SparseTable;
use crate::sparse_table::lines::is_line_small;

impl SparseTable {
    /// Whether all numbers are below 2^31.
    pub(super) fn are_rows_small(&self) -> bool
        ensures { MatchBool result (AreSmall self.now) (HasLarge self.now) }
    {
        for row in 0..self.rows + 3 {
            if !self.is_row_small(row) {
                return false;
            }
        }
        true
    }

    /// Whether a row's numbers are below 2^31.
    pub(super) fn is_row_small(&self, row: usize) -> bool
        requires { row < self.now.rows + 3 }
        ensures { MatchBool result (IsRowBelow 31 self.now row) (HasLargeIn self.now row) }
    {
        if !is_line_small(self.line(row)) {
            return false;
        }
        if row >= self.rows {
            return true;
        }
        is_small(self.right[row])
    }
}
