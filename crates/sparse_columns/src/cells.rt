//! The numbers of a column.

ghost use Rattle.std.specs.Prelude.{◌≡◌, ℕ, ◌<◌, ◌≤◌, ◌^◌, ◌++◌, [], ◌∷◌, pos, unsigned_abs, true, length, IfOk, IfSome, false, Some, slice_get, ◌≢◌, ◌+ℤ◌, ◌+◌};
ghost use Rattle.std.specs.Prelude.{if◌then◌else◌};
ghost use Rattle.sparse_columns.specs.declared.cell.Cell.{Cell};
ghost use Rattle.int_laws.specs.Sums.{sum_to};
ghost use Rattle.sparse_columns.specs.Order.{IsAscending, IsBefore, IsFrom};

use crate::cell::Cell;
use crate::totals::sum_of;
use std::alloc::{AllocError, Global};

/// The nonzero numbers of a column, by ascending rows.
#[derive(Debug, Drop)]
pub struct Cells {
    items: Vec<Cell>,
    ghost ascending: { IsAscending items.items },
}

impl Cells {
    ghost use Rattle.sparse_columns.specs.Numbers.{alone, number, number_of, places, AreNumbers, Puts};

    /// The empty list of cells.
    pub fn new(alloc: Global) -> Cells
        ensures { (i : ℕ) → number result i ≡ pos 0 }
    {
        Cells {
            items: Vec::new(alloc),
        }
    }

    /// The empty list of cells, with memory reserved for this many.
    pub fn with_capacity(alloc: Global, capacity: usize) -> Result<Cells, AllocError>
        ensures numbers { IfOk result (λ cells. (i : ℕ) → number cells i ≡ pos 0) }
        ensures places { IfOk result (λ cells. places cells ≡ capacity) }
    {
        Ok(Cells {
            items: Vec::with_capacity(alloc, capacity)?,
        })
    }

    /// The cells.
    pub fn as_slice(&self) -> &[Cell]
        ensures items { result.now ≡ self.now.items.items }
        ensures ascending { IsAscending result.now }
    {
        self.items.as_slice()
    }

    /// The cells in rows before this one; takes the time to skip the others.
    pub fn before(&self, row: u32) -> &[Cell]
        ensures numbers { (i : ℕ) → i < row → number_of result.now i ≡ number self.now i }
        ensures lists { AreNumbers result.now (number self.now) row }
    {
        let cells = self.items.as_slice();
        &cells[..first_from_behind(cells, row)]
    }

    /// Puts a number in a row that has none, if it is below 2^31 in absolute value; a 0 is not stored. Returns whether
    /// the number fits. At the end this takes constant time; elsewhere the later cells are moved.
    ///
    /// # Errors
    ///
    /// `AllocError` if an allocation fails.
    pub fn put(&mut self, row: u32, value: i64) -> Result<bool, AllocError>
        ensures { IfOk result (λ is_put. is_put ≡ true → Puts self.old self.new row value) }
    {
        if value == 0 {
            return Ok(true);
        }
        let Some(cell) = Cell::new(row, value) else {
            return Ok(false);
        };
        if self.append(cell)? {
            return Ok(true);
        }
        self.insert(cell)
    }

    /// Appends a number, in reserved memory, if its row comes after all others and it is below 2^31 in absolute value;
    /// a 0 is not stored. Returns whether it could be appended.
    pub(crate) fn push(&mut self, row: u32, value: i64) -> bool
        requires { 0 < places self.old }
        ensures puts { result ≡ true → Puts self.old self.new row value }
        ensures places { places self.old ≤ places self.new + 1 }
    {
        if value == 0 {
            return true;
        }
        let Some(cell) = Cell::new(row, value) else {
            return false;
        };
        self.append_in_place(cell)
    }

    /// Appends a cell, in reserved memory, if its row comes after all others. Returns whether it was appended; if not,
    /// the cells are unchanged.
    fn append_in_place(&mut self, cell: Cell) -> bool
        requires { 0 < places self.old }
        ensures items { self.new.items.items
            ≡ (if result then self.old.items.items ++ cell ∷ [] else self.old.items.items) }
        ensures places { places self.old ≤ places self.new + 1 }
    {
        if let Some(last) = self.items.last()
            && last.row >= cell.row
        {
            return false;
        }
        self.items.push_reserved(cell);
        true
    }

    /// Appends a cell, if its row comes after all others. Returns whether it was appended; if not, the cells are
    /// unchanged.
    fn append(&mut self, cell: Cell) -> Result<bool, AllocError>
        ensures { IfOk result (λ is_put. self.new.items.items
            ≡ (if is_put then self.old.items.items ++ cell ∷ [] else self.old.items.items)) }
    {
        if let Some(last) = self.items.last()
            && last.row >= cell.row
        {
            return Ok(false);
        }
        self.items.push(cell)?;
        Ok(true)
    }

    /// Inserts a cell, if its row has no cell. Returns whether it was inserted.
    fn insert(&mut self, cell: Cell) -> Result<bool, AllocError>
        ensures { IfOk result (λ is_put. is_put ≡ true → (i : ℕ)
            → number self.new i ≡ number self.old i +ℤ alone cell.row cell.number i) }
    {
        let position = first_from(self.items.as_slice(), cell.row);
        if self.has_row_at(position, cell.row) {
            return Ok(false);
        }
        self.items.insert(position, cell)?;
        Ok(true)
    }

    /// Whether the cell at a position is in a row.
    fn has_row_at(&self, position: usize, row: u32) -> bool
        ensures { result ≡ false → (c : Cell) → slice_get self.now.items.items position ≡ Some c → c.row ≢ row }
    {
        position < self.items.len() && self.items[position].row == row
    }

    /// The sum of the numbers. None if an intermediate sum overflows.
    pub fn total(&self) -> Option<i64>
        ensures { IfSome result (λ sum. (m : ℕ) → ((i : ℕ) → m ≤ i → number self.now i ≡ pos 0)
            → sum ≡ sum_to m (number self.now)) }
    {
        sum_of(self.items.as_slice())
    }

    /// The number in a row.
    pub fn at(&self, row: u32) -> i64
        ensures value { result ≡ number self.now row }
        ensures bounded { unsigned_abs result < 2 ^ 31 }
    {
        self.number_at(first_from(self.items.as_slice(), row), row)
    }

    /// The number in a row, searched from the end, which is fast for one of the last rows.
    pub fn late(&self, row: u32) -> i64
        ensures value { result ≡ number self.now row }
        ensures bounded { unsigned_abs result < 2 ^ 31 }
    {
        self.number_at(first_from_behind(self.items.as_slice(), row), row)
    }

    /// The number in a row, given the position of the first cell whose row is at least this one.
    fn number_at(&self, position: usize, row: u32) -> i64
        requires before { IsBefore self.now.items.items position row }
        requires from { IsFrom self.now.items.items position row }
        ensures value { result ≡ number self.now row }
        ensures bounded { unsigned_abs result < 2 ^ 31 }
    {
        let cells = self.items.as_slice();
        if position < cells.len() && cells[position].row == row {
            cells[position].value()
        } else {
            0
        }
    }
}

/// The position of the first cell whose row is at least this one.
fn first_from(cells: &[Cell], row: u32) -> usize
    requires { IsAscending cells.now }
    ensures within { result ≤ length cells.now }
    ensures before { IsBefore cells.now result row }
    ensures from { IsFrom cells.now result row }
{
    let mut low = 0;
    let mut high = cells.len();
    while low < high {
        let middle = low + (high - low) / 2;
        if cells[middle].row < row {
            low = middle + 1;
        } else {
            high = middle;
        }
    }
    low
}

/// The position of the first cell whose row is at least this one, searched from the end.
fn first_from_behind(cells: &[Cell], row: u32) -> usize
    requires { IsAscending cells.now }
    ensures within { result ≤ length cells.now }
    ensures before { IsBefore cells.now result row }
    ensures from { IsFrom cells.now result row }
{
    let mut found = cells.len();
    while found > 0 && cells[found - 1].row >= row {
        found -= 1;
    }
    found
}
