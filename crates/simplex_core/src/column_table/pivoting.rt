//! Executes a pivot on the columns.

ghost use Rattle.std.specs.Prelude.{◌≡◌, ℕ, ◌+◌, ◌<◌, ◌≤◌, ◌^◌, ℤ, pos, ◌<ℤ◌, ◌≤ℤ◌, Some, IfOk, List, slice_get, unsigned_abs};
ghost use Rattle.std.specs.Prelude.{length};
ghost use Rattle.sparse_columns.specs.declared.cell.Cell.{Cell};
ghost use Rattle.sparse_columns.specs.declared.column.Column.{Column};
ghost use Rattle.sparse_columns.specs.Columns.{numerator};
ghost use Rattle.simplex_core.specs.ColumnListing.{AreTouched, AreRowsBelow};
ghost use Rattle.simplex_core.specs.ColumnTables.{IsPivotedBy, ClearsColumns, ClearsTouched, ClearsColumn, ClearsRight};
ghost use Rattle.simplex_core.specs.ColumnTables.{ListsTouched, IsKept, IsFirst, AreNotNegative};

use crate::column_table::ColumnTable;
use crate::column_table::lists::RowColumns;
use crate::simplex_table::Unmade;
use sparse_columns::{Cell, Cells, Column};
use std::alloc::{AllocError, Global};

impl ColumnTable {
    /// Executes a pivot at a row and a column with a number above 0 there. `Beyond` if a number doesn't fit; the
    /// table's contents are then unspecified.
    pub(super) fn pivot(&mut self, alloc: Global, row: u32, column: usize) -> Result<(), Unmade>
        requires row { row < self.old.rows }
        requires column { column < self.old.width }
        requires positive { (x : Column) → slice_get self.old.columns.items column ≡ Some x → pos 0 <ℤ numerator x row }
        requires beside { IsKept self.old }
        ensures { IfOk result (λ _. (pivot : ℤ) × (shifted : List Cell)
            × IsPivotedBy self.old self.new row column pivot shifted) }
    {
        let pivot = self.columns[column].at(row);
        let Some(shifted) = self.columns[column].shifted(alloc, row)? else {
            return Err(Unmade::Beyond);
        };
        self.clear_right(alloc, row, pivot, shifted.before(self.rows))?;
        self.clear_columns(alloc, row, pivot, &shifted)?;
        self.basis[row as usize] = column as u32;
        self.first = self.next_first();
        Ok(())
    }

    /// The least column from the first one on with a number below 0 in the first cost row; the number of columns, if none
    /// has one.
    fn next_first(&self) -> u32
        ensures within { result ≤ self.now.width }
        ensures first { IsFirst self.now → AreNotNegative self.now.columns.items self.now.rows result }
    {
        for position in self.first..self.width {
            if self.columns[position as usize].late(self.rows) < 0 {
                return position;
            }
        }
        self.width
    }

    /// Clears the right side of a row. If it is 0, the right sides are unchanged.
    fn clear_right(
        &mut self,
        alloc: Global,
        row: u32,
        pivot: i64,
        shifted: &[Cell],
    ) -> Result<(), Unmade>
        requires pivot { unsigned_abs pivot < 2 ^ 31 }
        requires positive { pos 0 <ℤ pivot }
        ensures { IfOk result (λ _. ClearsRight self.old self.new row pivot shifted.now) }
    {
        if self.right.at(row) == 0 {
            return Ok(());
        }
        let Some(right) = self.right.cleared(alloc, row, pivot, shifted)? else {
            return Err(Unmade::Beyond);
        };
        self.right = right;
        Ok(())
    }

    /// Clears each column's number in a row, and sets this row's list to the columns that have one.
    fn clear_columns(
        &mut self,
        alloc: Global,
        row: u32,
        pivot: i64,
        shifted: &Cells,
    ) -> Result<(), Unmade>
        requires row { row < self.old.rows }
        requires pivot { unsigned_abs pivot < 2 ^ 31 }
        requires positive { pos 0 <ℤ pivot }
        requires beside { IsKept self.old }
        ensures { IfOk result (λ _. ClearsColumns self.old self.new row pivot shifted.now.items.items) }
    {
        let touched = self.touched_columns(alloc, row)?;
        let front = shifted.before(self.rows);
        self.list_touched(row, front, touched.as_slice())?;
        self.clear_touched(alloc, row, pivot, shifted, touched.as_slice())?;
        self.lists[row as usize] = RowColumns::of(touched);
        Ok(())
    }

    /// Appends columns to the lists of these cells' rows, except for one row.
    fn list_touched(&mut self, row: u32, cells: &[Cell], touched: &[u32]) -> Result<(), AllocError>
        requires cells { AreRowsBelow cells.now self.old.rows }
        requires beside { IsKept self.old }
        ensures { IfOk result (λ _. ListsTouched self.old self.new row cells.now touched.now (length cells.now)) }
    {
        for cell in cells {
            if cell.row != row {
                self.list_in_row(cell.row, touched)?;
            }
        }
        Ok(())
    }

    /// Clears the numbers of these columns in a row.
    fn clear_touched(
        &mut self,
        alloc: Global,
        row: u32,
        pivot: i64,
        shifted: &Cells,
        touched: &[u32],
    ) -> Result<(), Unmade>
        requires pivot { unsigned_abs pivot < 2 ^ 31 }
        requires positive { pos 0 <ℤ pivot }
        requires touched { AreTouched self.old.columns.items row touched.now }
        ensures { IfOk result (λ _. ClearsTouched self.old self.new row pivot shifted.now.items.items touched.now
            (length touched.now)) }
    {
        for place in 0..touched.len() {
            self.clear_column(alloc, touched[place], row, pivot, shifted)?;
        }
        Ok(())
    }

    /// Clears a column's number in a row. If its number in the first cost row becomes negative, `first` becomes at most
    /// this column.
    fn clear_column(
        &mut self,
        alloc: Global,
        position: u32,
        row: u32,
        pivot: i64,
        shifted: &Cells,
    ) -> Result<(), Unmade>
        requires position { position < length self.old.columns.items }
        requires pivot { unsigned_abs pivot < 2 ^ 31 }
        requires positive { pos 0 <ℤ pivot }
        ensures { IfOk result (λ _. ClearsColumn self.old self.new position row pivot shifted.now.items.items) }
    {
        let old = &self.columns[position as usize];
        let Some(column) = old.cleared(alloc, row, pivot, shifted.as_slice())? else {
            return Err(Unmade::Beyond);
        };
        self.first = lesser(self.first, position, &column, self.rows);
        self.columns[position as usize] = column;
        Ok(())
    }
}

/// The lesser of `first` and this column, if the column has a number below 0 in this row; else `first`.
fn lesser(first: u32, position: u32, column: &Column, row: u32) -> u32
    ensures within { result ≤ first }
    ensures own { position < result → pos 0 ≤ℤ numerator column.now row }
{
    if first <= position {
        return first;
    }
    if column.late(row) >= 0 {
        return first;
    }
    position
}
