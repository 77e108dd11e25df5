//! The columns that a pivot changes: those with a nonzero number in its row.

ghost use Rattle.std.specs.Prelude.{◌≡◌, ◌≢◌, ℕ, ◌+◌, ◌<◌, IfOk, IsTrue, false, Some, List, length, slice_get, pos};
ghost use Rattle.sparse_columns.specs.declared.column.Column.{Column};
ghost use Rattle.sparse_columns.specs.Columns.{numerator};
ghost use Rattle.simplex_core.specs.ColumnListing.{AreTouched, AreMarked, AreBlank, Covers, Unmarks, UnmarksAt};
ghost use Rattle.simplex_core.specs.ColumnTables.{IsKept, ChangesBeside};

use crate::column_table::ColumnTable;
use sparse_columns::Column;
use std::alloc::{AllocError, Global};

impl ColumnTable {
    /// The columns with a number in a row, each once. No mark is set afterwards.
    pub(super) fn touched_columns(
        &mut self,
        alloc: Global,
        row: u32,
    ) -> Result<Vec<u32>, AllocError>
        requires row { row < self.old.rows }
        requires beside { IsKept self.old }
        ensures touched { IfOk result (λ touched. AreTouched self.old.columns.items row touched.items) }
        ensures changes { IfOk result (λ _. ChangesBeside self.old self.new) }
    {
        self.renew_lists(alloc)?;
        self.touched_listed(alloc, row)
    }

    /// The columns with a number in a row, found by the row's list.
    fn touched_listed(&mut self, alloc: Global, row: u32) -> Result<Vec<u32>, AllocError>
        requires row { row < self.old.rows }
        requires beside { IsKept self.old }
        ensures touched { IfOk result (λ touched. AreTouched self.old.columns.items row touched.items) }
        ensures changes { IfOk result (λ _. ChangesBeside self.old self.new) }
    {
        let columns = self.columns.as_slice();
        let listed = self.lists[row as usize].as_slice();
        touched_of(alloc, columns, listed, row, &mut self.marks)
    }
}

/// Those of the listed columns that have a number in a row, each once. No mark is set afterwards.
fn touched_of(
    alloc: Global,
    columns: &[Column],
    listed: &[u32],
    row: u32,
    marks: &mut Vec<bool>,
) -> Result<Vec<u32>, AllocError>
    requires { AreBlank marks.old.items (length columns.now) }
    ensures touched { IfOk result (λ touched. Covers columns.now row listed.now
        → AreTouched columns.now row touched.items) }
    ensures blank { IfOk result (λ _. AreBlank marks.new.items (length columns.now)) }
{
    let mut touched = Vec::with_capacity(alloc, listed.len())?;
    for place in 0..listed.len() {
        touch(columns, listed[place], row, marks, &mut touched)?;
    }
    unmark(touched.as_slice(), marks);
    Ok(touched)
}

/// Appends a column to those found and marks it, if it has a number in the row and isn't marked.
fn touch(
    columns: &[Column],
    position: u32,
    row: u32,
    marks: &mut Vec<bool>,
    touched: &mut Vec<u32>,
) -> Result<(), AllocError>
    requires { length marks.old.items ≡ length columns.now }
    ensures { IfOk result (λ _. (listed : List ℕ) (m : ℕ) → slice_get listed m ≡ Some position
        → AreMarked columns.now row listed m marks.old.items touched.old.items
        → AreMarked columns.now row listed (m + 1) marks.new.items touched.new.items) }
{
    let place = position as usize;
    if place >= marks.len() {
        return Ok(());
    }
    if marks[place] {
        return Ok(());
    }
    if columns[place].at(row) == 0 {
        return Ok(());
    }
    marks[place] = true;
    touched.push(position)?;
    Ok(())
}

/// Removes the marks of these columns.
fn unmark(touched: &[u32], marks: &mut Vec<bool>)
    ensures { Unmarks marks.old.items marks.new.items touched.now (length touched.now) }
{
    for place in 0..touched.len() {
        unmark_at(touched[place] as usize, marks);
    }
}

/// Removes the mark of a column.
fn unmark_at(place: usize, marks: &mut Vec<bool>)
    ensures { UnmarksAt marks.old.items marks.new.items place }
{
    if place < marks.len() {
        marks[place] = false;
    }
}
