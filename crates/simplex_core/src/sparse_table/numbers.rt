//! Writes the first tableau into a table of zeros.

ghost use Rattle.std.specs.Prelude.{◌≡◌, ℕ, ◌+◌, ◌*◌, ◌<◌, ◌^◌, ℤ, pos, ◌*ℤ◌, List, length, IfOk, slice_index};
ghost use Rattle.std.specs.Prelude.{slice_index_or, unsigned_abs};
ghost use Rattle.int_laws.specs.Sums.{sum_to};
ghost use Rattle.simplex_core.specs.Tableau.{sign_of};
ghost use Rattle.simplex_core.specs.Cells.{ChangesRow};
ghost use Rattle.simplex_core.specs.Lines.{AreAllEmpty, AreAllZero};
ghost use Rattle.simplex_core.specs.Building.{HoldsWhole, WritesWhole, KeepsShape, signed_entries, with_equations};
ghost use Rattle.simplex_core.specs.Building.{with_costs, IsZeroAt, AreZeroFrom, AreCostsZeroFrom, AreSumsOf};
ghost use Rattle.simplex_core.specs.Building.{AreNarrowNumbers};
ghost use Rattle.simplex_core.specs.Numbers.{AreInCells, AreNumbersSmall, AreEntriesBelow};
ghost use Rattle.simplex_core.specs.Sizes.{number_limit};

use crate::arithmetic::signed;
use crate::problem::Entry;
use crate::sparse_table::SparseTable;
use frac128::Frac;
use sparse_rows::SparseRow;
use std::alloc::{AllocError, Global};

impl SparseTable {
    /// A table of zeros, with the artificial unknowns as the basis.
    pub(super) fn zeros(
        alloc: Global,
        rows: usize,
        columns: usize,
    ) -> Result<SparseTable, AllocError>
        requires rows { rows < 2 ^ 31 }
        requires columns { columns < 2 ^ 31 }
        ensures shape { IfOk result (λ table. (table.rows ≡ rows) × (table.columns ≡ columns)) }
        ensures whole { IfOk result (λ table. HoldsWhole table (λ _ _. pos 0)) }
        ensures basis { IfOk result (λ table. (i : ℕ) → i < rows → slice_index table.basis.items i ≡ columns + i) }
    {
        let lines = zero_lines(alloc, rows + 3)?;
        let right = zero_sides(alloc, rows)?;
        let basis = first_basis(alloc, rows, columns)?;
        Ok(SparseTable {
            lines,
            right,
            basis,
            rows,
            columns,
            is_small: true,
        })
    }

    /// Writes the entries into a table of zeros, with the signs of the right sides. Error: memory ran out.
    pub(super) fn write_entries(
        &mut self,
        entries: &[Entry],
        right: &[i128],
    ) -> Result<(), AllocError>
        requires cells { AreInCells self.old.rows self.old.columns entries.now }
        requires small { AreEntriesBelow entries.now }
        requires right { length right.now ≡ self.old.rows }
        requires zeros { HoldsWhole self.old (λ _ _. pos 0) }
        ensures shape { IfOk result (λ _. KeepsShape self.old self.new) }
        ensures whole { IfOk result (λ _. HoldsWhole self.new (signed_entries entries.now right.now)) }
    {
        for position in 0..entries.len() {
            let entry = entries[position];
            self.write_entry(entry, right[entry.row as usize])?;
        }
        Ok(())
    }

    /// Writes an entry, with the sign of its row's right side. Error: memory ran out.
    fn write_entry(&mut self, entry: Entry, right: i128) -> Result<(), AllocError>
        requires row { entry.row < self.old.rows }
        requires column { entry.col < self.old.columns }
        requires small { unsigned_abs entry.value < number_limit }
        requires none { IsZeroAt self.old entry.row entry.col }
        ensures { IfOk result (λ _. WritesWhole self.old self.new entry.row entry.col
            (sign_of right *ℤ entry.value)) }
    {
        self.write(
            entry.row as usize,
            entry.col as usize,
            signed(entry.value, right),
        )
    }

    /// Writes the artificial unknown and the right side of each row. Error: memory ran out.
    pub(super) fn write_rows(&mut self, right: &[i128]) -> Result<(), AllocError>
        requires right { length right.now ≡ self.old.rows }
        requires small { AreNumbersSmall right.now }
        requires none { AreZeroFrom self.old 0 }
        ensures shape { IfOk result (λ _. KeepsShape self.old self.new) }
        ensures whole { IfOk result (λ _. (g : ℕ → ℕ → ℤ) → HoldsWhole self.old g
            → HoldsWhole self.new (with_equations self.old.rows self.old.columns right.now g self.old.rows)) }
    {
        for row in 0..self.rows {
            self.write_row(row, right[row])?;
        }
        Ok(())
    }

    /// Writes the artificial unknown and the right side of a row. Error: memory ran out.
    fn write_row(&mut self, row: usize, right: i128) -> Result<(), AllocError>
        requires row { row < self.old.rows }
        requires small { unsigned_abs right < number_limit }
        requires none { IsZeroAt self.old row (self.old.columns + row) }
        ensures shape { IfOk result (λ _. KeepsShape self.old self.new) }
        ensures changes { IfOk result (λ _. ChangesRow self.old self.new row) }
        ensures whole { IfOk result (λ _. (g : ℕ → ℕ → ℤ) (sides : List ℤ) → slice_index_or sides row (pos 0) ≡ right
            → HoldsWhole self.old (with_equations self.old.rows self.old.columns sides g row)
            → HoldsWhole self.new (with_equations self.old.rows self.old.columns sides g (row + 1))) }
    {
        self.write(row, self.columns + row, 1)?;
        self.set_side(row, Frac::whole(signed(right, right)));
        Ok(())
    }

    /// Writes the cost rows: first the negated sums of the equations' numbers, then the two lists of costs. Error:
    /// memory ran out.
    pub(super) fn write_costs(
        &mut self,
        sums: &[i128],
        first: &[i128],
        second: &[i128],
    ) -> Result<(), AllocError>
        requires sums { length sums.now ≡ self.old.columns }
        requires sums_small { AreNarrowNumbers sums.now }
        requires first { length first.now ≡ self.old.columns }
        requires first_small { AreNumbersSmall first.now }
        requires second { length second.now ≡ self.old.columns }
        requires second_small { AreNumbersSmall second.now }
        requires none { AreCostsZeroFrom self.old 0 }
        ensures shape { IfOk result (λ _. KeepsShape self.old self.new) }
        ensures whole { IfOk result (λ _. (g : ℕ → ℕ → ℤ) → HoldsWhole self.old g
            → AreSumsOf g self.old.rows self.old.columns sums.now
            → HoldsWhole self.new (with_costs self.old.rows g first.now second.now self.old.columns)) }
    {
        for column in 0..self.columns {
            self.write_cost(column, sums[column], first[column], second[column])?;
        }
        Ok(())
    }

    /// Writes the numbers of a column in the cost rows. Error: memory ran out.
    fn write_cost(
        &mut self,
        column: usize,
        sum: i128,
        first: i128,
        second: i128,
    ) -> Result<(), AllocError>
        requires column { column < self.old.columns }
        requires sum_small { unsigned_abs sum < 2 ^ 127 }
        requires first_small { unsigned_abs first < number_limit }
        requires second_small { unsigned_abs second < number_limit }
        requires none { AreCostsZeroFrom self.old column }
        ensures shape { IfOk result (λ _. KeepsShape self.old self.new) }
        ensures none { IfOk result (λ _. AreCostsZeroFrom self.new (column + 1)) }
        ensures whole { IfOk result (λ _. (g : ℕ → ℕ → ℤ) (f s : List ℤ) → sum ≡ sum_to self.old.rows (λ i. g i column)
            → slice_index_or f column (pos 0) ≡ first → slice_index_or s column (pos 0) ≡ second
            → HoldsWhole self.old (with_costs self.old.rows g f s column)
            → HoldsWhole self.new (with_costs self.old.rows g f s (column + 1))) }
    {
        self.write(self.rows, column, -sum)?;
        self.write(self.rows + 1, column, first)?;
        self.write(self.rows + 2, column, second)
    }

    /// Writes an integer where the line of a row is still 0. Error: memory ran out.
    fn write(&mut self, row: usize, column: usize, number: i128) -> Result<(), AllocError>
        requires row { row < self.old.rows + 3 }
        requires column { column < self.old.columns + self.old.rows }
        requires narrow { unsigned_abs number < 2 ^ 127 }
        requires none { IsZeroAt self.old row column }
        ensures { IfOk result (λ _. WritesWhole self.old self.new row column number) }
    {
        let line = &mut self.lines[row];
        line.put(column as u32, Frac::whole(number))
    }
}

/// The sums of the equations' numbers in each column of the program. Error: memory ran out.
pub(super) fn column_sums(
    alloc: Global,
    entries: &[Entry],
    right: &[i128],
    columns: usize,
) -> Result<Vec<i128>, AllocError>
    requires cells { AreInCells (length right.now) columns entries.now }
    requires small { AreEntriesBelow entries.now }
    ensures length { IfOk result (λ sums. length sums.items ≡ columns) }
    ensures narrow { IfOk result (λ sums. AreNarrowNumbers sums.items) }
    ensures sums { IfOk result (λ sums.
        AreSumsOf (signed_entries entries.now right.now) (length right.now) columns sums.items) }
{
    let mut sums = vec![in alloc; 0_i128; columns]?;
    for position in 0..entries.len() {
        let entry = entries[position];
        let column = entry.col as usize;
        sums[column] += signed(entry.value, right[entry.row as usize]);
    }
    Ok(sums)
}

/// Lines of zeros. Error: memory ran out.
fn zero_lines(alloc: Global, count: usize) -> Result<Vec<SparseRow>, AllocError>
    ensures length { IfOk result (λ lines. length lines.items ≡ count) }
    ensures each { IfOk result (λ lines. AreAllEmpty lines.items) }
{
    let mut lines = Vec::with_capacity(alloc, count)?;
    for made in 0..count {
        lines.push(SparseRow::zeros(alloc))?;
    }
    Ok(lines)
}

/// Right sides of 0. Error: memory ran out.
fn zero_sides(alloc: Global, count: usize) -> Result<Vec<Frac>, AllocError>
    ensures length { IfOk result (λ sides. length sides.items ≡ count) }
    ensures each { IfOk result (λ sides. AreAllZero sides.items) }
{
    let mut sides = Vec::with_capacity(alloc, count)?;
    for made in 0..count {
        sides.push(Frac::default())?;
    }
    Ok(sides)
}

/// The columns of the artificial unknowns.
pub(crate) fn first_basis(
    alloc: Global,
    rows: usize,
    columns: usize,
) -> Result<Vec<u32>, AllocError>
    requires rows { rows < 2 ^ 31 }
    requires columns { columns < 2 ^ 31 }
    ensures length { IfOk result (λ basis. length basis.items ≡ rows) }
    ensures each { IfOk result (λ basis. (i : ℕ) → i < rows → slice_index basis.items i ≡ columns + i) }
{
    let mut basis = Vec::with_capacity(alloc, rows)?;
    for row in 0..rows {
        basis.push((columns + row) as u32)?;
    }
    Ok(basis)
}
