//! For each row, a list of the columns that may have a nonzero number there.

ghost use Rattle.std.specs.Prelude.{◌≡◌, ◌<◌, ◌^◌, IfOk, length, ◌++◌, List, [], ◌∷◌};
ghost use Rattle.simplex_core.specs.ColumnListing.{AreListed, PutsCells, AreRowsBelow, HasBoth};
ghost use Rattle.simplex_core.specs.ColumnTables.{IsKept, ChangesBeside, ListsInRow};
ghost use Rattle.sparse_columns.specs.declared.cell.Cell.{Cell};
ghost use Rattle.sparse_columns.specs.declared.column.Column.{Column};

use crate::column_table::ColumnTable;
use sparse_columns::{Cell, Column};
use std::alloc::{AllocError, Global};

/// How many columns may be appended per list before the lists are rebuilt, in addition to eight times as many columns
/// as all lists name.
const ROOM: usize = 16;

/// Columns, in any order.
#[derive(Debug, Drop)]
pub(crate) struct RowColumns {
    columns: Vec<u32>,
}

impl RowColumns {
    /// The empty list.
    fn new(alloc: Global) -> RowColumns
        ensures { result.columns.items ≡ [] }
    {
        RowColumns {
            columns: Vec::new(alloc),
        }
    }

    /// The list of these columns. If they take less than a quarter of their memory, the rest is given back.
    pub(super) fn of(columns: Vec<u32>) -> RowColumns
        ensures { result.columns.items ≡ columns.items }
    {
        let mut columns = columns;
        if columns.len() < columns.capacity() / 4 {
            columns.shrink_to_fit();
        }
        RowColumns { columns }
    }

    /// The columns.
    pub(super) fn as_slice(&self) -> &[u32]
        ensures { result.now ≡ self.now.columns.items }
    {
        self.columns.as_slice()
    }

    /// Adds a column.
    fn push(&mut self, column: u32) -> Result<(), AllocError>
        ensures { IfOk result (λ _. self.new.columns.items ≡ self.old.columns.items ++ column ∷ []) }
    {
        self.columns.push(column)?;
        Ok(())
    }

    /// Adds columns.
    pub(super) fn extend(&mut self, columns: &[u32]) -> Result<(), AllocError>
        ensures { IfOk result (λ _. HasBoth self.old.columns.items columns.now self.new.columns.items) }
    {
        self.columns.extend_from_slice(columns)?;
        Ok(())
    }
}

impl ColumnTable {
    /// Rebuilds the lists from the columns with a number in each row, once too many have been appended.
    pub(super) fn renew_lists(&mut self, alloc: Global) -> Result<(), AllocError>
        requires { IsKept self.old }
        ensures { IfOk result (λ _. ChangesBeside self.old self.new) }
    {
        if self.room > 0 {
            return Ok(());
        }
        self.lists = first_lists(alloc, self.columns.as_slice(), self.rows)?;
        self.room = room_of(self.lists.as_slice());
        Ok(())
    }

    /// Appends columns to a row's list.
    pub(super) fn list_in_row(&mut self, row: u32, touched: &[u32]) -> Result<(), AllocError>
        requires row { row < self.old.rows }
        requires beside { IsKept self.old }
        ensures { IfOk result (λ _. ListsInRow self.old self.new row touched.now) }
    {
        self.lists[row as usize].extend(touched)?;
        self.room = self.room.saturating_sub(touched.len());
        Ok(())
    }
}

/// How many columns may be appended to the lists before they are rebuilt: eight times as many as they name, and `ROOM`
/// for each list.
pub(super) fn room_of(lists: &[RowColumns]) -> usize {
    let mut room: usize = 0;
    for list in lists {
        let named = list.columns.len().saturating_mul(8);
        room = room.saturating_add(named).saturating_add(ROOM);
    }
    room
}

/// The list of each row: the columns with a number there.
pub(super) fn first_lists(
    alloc: Global,
    columns: &[Column],
    rows: u32,
) -> Result<Vec<RowColumns>, AllocError>
    requires { length columns.now < 2 ^ 32 }
    ensures length { IfOk result (λ lists. length lists.items ≡ rows) }
    ensures listed { IfOk result (λ lists. AreListed columns.now lists.items rows (length columns.now)) }
{
    let mut lists = empty_lists(alloc, rows)?;
    for position in 0..columns.len() {
        let cells = columns[position].cells().before(rows);
        put_cells(&mut lists, cells, position as u32)?;
    }
    Ok(lists)
}

/// An empty list for each row.
fn empty_lists(alloc: Global, rows: u32) -> Result<Vec<RowColumns>, AllocError>
    ensures { IfOk result (λ lists. length lists.items ≡ rows) }
{
    let mut lists = Vec::with_capacity(alloc, rows as usize)?;
    for _ in 0..rows {
        lists.push(RowColumns::new(alloc))?;
    }
    Ok(lists)
}

/// Appends a column to the list of each cell's row.
fn put_cells(lists: &mut Vec<RowColumns>, cells: &[Cell], position: u32) -> Result<(), AllocError>
    requires { AreRowsBelow cells.now (length lists.old.items) }
    ensures size { length lists.new.items ≡ length lists.old.items }
    ensures puts { IfOk result (λ _. PutsCells lists.old.items lists.new.items cells.now position (length cells.now)) }
{
    for cell in cells {
        lists[cell.row as usize].push(position)?;
    }
    Ok(())
}
