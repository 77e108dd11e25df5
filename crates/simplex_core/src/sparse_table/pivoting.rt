//! Executes a pivot on the lines.

ghost use Rattle.std.specs.Prelude.{◌≡◌, ◌≢◌, ℕ, ◌+◌, ◌<◌, ℤ, pos, ◌<ℤ◌, ◌*ℤ◌, Some, MatchBool, IfOk, ◌&&◌};
ghost use Rattle.frac128.specs.Fraction.{IsFraction};
ghost use Rattle.frac128.specs.declared.frac.Frac.{Frac};
ghost use Rattle.simplex_core.specs.Sizes.{IsBelow};
ghost use Rattle.simplex_core.specs.Cells.{width, cell, ChangesCell, IsLessMultiple, AreSmall, ChangesRow, IsRowBelow};
ghost use Rattle.simplex_core.specs.Cells.{IsRowDivided, IsRowCleared, IsRowClearedBy, KeepsRow, IsPivoted, HasLarge};
ghost use Rattle.simplex_core.specs.Cells.{HasLargeIn, HasLargeBut, AreSmallBut, IsCellBelow, ClearsSide};

use crate::arithmetic::{less_multiple, quotient};
use crate::sparse_table::SparseTable;
use crate::sparse_table::lines::{cleared, divided};
use frac128::Frac;
use std::alloc::{AllocError, Global};

impl SparseTable {
    /// Executes a pivot: divides the row by its number in the column, and clears the column in the other rows.
    ///
    /// Error: memory ran out; the table's contents are then unspecified.
    pub(super) fn pivot(
        &mut self,
        alloc: Global,
        row: usize,
        column: usize,
    ) -> Result<(), AllocError>
        requires row { row < self.old.rows }
        requires column { column < self.old.columns }
        requires small { AreSmall self.old }
        requires positive { (f : Frac) → cell self.old row column ≡ Some f → pos 0 <ℤ f.num }
        ensures pivoted { IfOk result (λ _. IsPivoted self.old self.new row column) }
        ensures tested { IfOk result (λ _. MatchBool self.new.is_small (AreSmall self.new) (HasLarge self.new)) }
    {
        let by = self.at(row, column);
        self.divide_row(alloc, row, by)?;
        let are_others_small = self.clear_others(alloc, row, column)?;
        self.is_small = self.are_all_small(row, are_others_small);
        self.basis[row] = column as u32;
        Ok(())
    }

    /// Whether all numbers are below 2^31, given this for all rows but one.
    fn are_all_small(&self, row: usize, are_others_small: bool) -> bool
        requires row { row < self.now.rows + 3 }
        requires others { MatchBool are_others_small (AreSmallBut self.now row (self.now.rows + 3))
            (HasLargeBut self.now row (self.now.rows + 3)) }
        ensures { MatchBool result (AreSmall self.now) (HasLarge self.now) }
    {
        if !are_others_small {
            return false;
        }
        self.is_row_small(row)
    }

    /// Divides a row by a number above 0. Error: memory ran out.
    fn divide_row(&mut self, alloc: Global, row: usize, by: Frac) -> Result<(), AllocError>
        requires row { row < self.old.rows }
        requires small { IsRowBelow 31 self.old row }
        requires by_small { IsBelow 31 by }
        requires positive { pos 0 <ℤ by.num }
        ensures changes { IfOk result (λ _. ChangesRow self.old self.new row) }
        ensures divided { IfOk result (λ _. IsRowDivided self.old self.new row by) }
        ensures bounded { IfOk result (λ _. IsRowBelow 62 self.new row) }
    {
        let line = divided(alloc, self.line(row), by)?;
        let side = quotient(self.right[row], by);
        self.set_line(row, line);
        self.set_side(row, side);
        Ok(())
    }

    /// Clears the column in each row but the pivot row. Returns whether the numbers of these rows are below 2^31.
    /// Error: memory ran out.
    fn clear_others(
        &mut self,
        alloc: Global,
        pivot: usize,
        column: usize,
    ) -> Result<bool, AllocError>
        requires pivot { pivot < self.old.rows }
        requires column { column < self.old.columns }
        requires small { (i : ℕ) → i ≢ pivot → i < self.old.rows + 3 → IsRowBelow 31 self.old i }
        requires bounded { IsRowBelow 62 self.old pivot }
        ensures kept { IfOk result (λ _. KeepsRow self.old self.new pivot) }
        ensures cleared { IfOk result (λ _. (i : ℕ) → i ≢ pivot → i < self.old.rows + 3
            → IsRowClearedBy self.old self.new i pivot column) }
        ensures tested { IfOk result (λ are_small. MatchBool are_small (AreSmallBut self.new pivot (self.new.rows + 3))
            (HasLargeBut self.new pivot (self.new.rows + 3))) }
    {
        let mut are_small = true;
        for row in 0..self.rows + 3 {
            let is_small = self.clear_by(alloc, row, pivot, column)?;
            are_small = both(is_small, are_small);
        }
        Ok(are_small)
    }

    /// Subtracts from a row, unless it is the pivot row, the multiple of the pivot row that its number in the column
    /// gives. Returns whether the row's numbers are below 2^31; for the pivot row the result has no meaning. Error:
    /// memory ran out.
    fn clear_by(
        &mut self,
        alloc: Global,
        row: usize,
        pivot: usize,
        column: usize,
    ) -> Result<bool, AllocError>
        requires row { row < self.old.rows + 3 }
        requires pivot { pivot < self.old.rows }
        requires column { column < self.old.columns }
        requires small { row ≢ pivot → IsRowBelow 31 self.old row }
        requires bounded { IsRowBelow 62 self.old pivot }
        ensures changes { IfOk result (λ _. ChangesRow self.old self.new row) }
        ensures pivot_row { row ≡ pivot → IfOk result (λ _. KeepsRow self.old self.new row) }
        ensures cleared { row ≢ pivot → IfOk result (λ _. IsRowClearedBy self.old self.new row pivot column) }
        ensures tested { IfOk result (λ is_small. MatchBool is_small (row ≢ pivot → IsRowBelow 31 self.new row)
            ((row ≢ pivot) × HasLargeIn self.new row)) }
    {
        if row == pivot {
            return Ok(true);
        }
        let factor = self.at(row, column);
        if factor.num == 0 {
            return Ok(true);
        }
        self.clear_row(alloc, row, pivot, factor)
    }

    /// Subtracts a multiple of the pivot row from a row. Returns whether the row's numbers are below 2^31. Error:
    /// memory ran out.
    fn clear_row(
        &mut self,
        alloc: Global,
        row: usize,
        pivot: usize,
        factor: Frac,
    ) -> Result<bool, AllocError>
        requires row { row < self.old.rows + 3 }
        requires pivot { pivot < self.old.rows }
        requires apart { row ≢ pivot }
        requires small { IsRowBelow 31 self.old row }
        requires bounded { IsRowBelow 62 self.old pivot }
        requires factor_small { IsBelow 31 factor }
        ensures changes { IfOk result (λ _. ChangesRow self.old self.new row) }
        ensures cleared { IfOk result (λ _. IsRowCleared self.old self.new row pivot factor) }
        ensures tested { IfOk result (λ is_small. MatchBool is_small (IsRowBelow 31 self.new row)
            (HasLargeIn self.new row)) }
    {
        let line = cleared(alloc, self.line(row), factor, self.line(pivot))?;
        self.set_line(row, line);
        if row < self.rows {
            self.clear_side(row, pivot, factor);
        }
        Ok(self.is_row_small(row))
    }

    /// Subtracts a multiple of the pivot row's right side from a row's.
    fn clear_side(&mut self, row: usize, pivot: usize, factor: Frac)
        requires row { row < self.old.rows }
        requires pivot { pivot < self.old.rows }
        requires factor_small { IsBelow 31 factor }
        requires small { IsCellBelow 31 self.old row (self.old.columns + self.old.rows) }
        requires bounded { IsCellBelow 62 self.old pivot (self.old.columns + self.old.rows) }
        ensures { ClearsSide self.old self.new row pivot factor }
    {
        let side = less_multiple(self.right[row], factor, self.right[pivot]);
        self.set_side(row, side);
    }
}

/// Whether both are true.
fn both(first: bool, second: bool) -> bool
    ensures { result ≡ (first && second) }
{
    first && second
}
