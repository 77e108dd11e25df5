//! Builds the table of the first tableau.

ghost use Rattle.std.specs.Prelude.{◌≡◌, ℕ, ◌+◌, ◌<◌, ◌≤◌, ◌^◌, ℤ, pos, ◌*ℤ◌, ◌-ℤ◌, IfOk, IfSome, true, List, length};
ghost use Rattle.std.specs.Prelude.{slice_index_or, unsigned_abs};
ghost use Rattle.sparse_columns.specs.Columns.{numerator};
ghost use Rattle.simplex_core.specs.Tableau.{sign_of, first_tableau};
ghost use Rattle.simplex_core.specs.Problem.{program_of, IsProper};
ghost use Rattle.simplex_core.specs.Numbers.{AreNumbersSmall, AreEntriesBelow, AreInCells};
ghost use Rattle.simplex_core.specs.Sizes.{number_limit};
ghost use Rattle.simplex_core.specs.ColumnTables.{ShowsColumns};
ghost use Rattle.simplex_core.specs.ColumnBuilding.{AreColumns, entries_at, with_entry, with_cost_columns, with_units};
ghost use Rattle.simplex_core.specs.ColumnBuilding.{HasSides, IsCosted};

use crate::arithmetic::signed;
use crate::column_table::ColumnTable;
use crate::column_table::lists::{first_lists, room_of};
use crate::problem::{Entry, Problem};
use crate::sparse_table::first_basis;
use sparse_columns::Column;
use std::alloc::{AllocError, Global};

/// The table of the first tableau of a problem whose numbers are below 2^31. None if a number doesn't fit in it.
pub(crate) fn first_columns(
    alloc: Global,
    problem: &Problem,
) -> Result<Option<ColumnTable>, AllocError>
    requires proper { IsProper problem.now }
    requires entries { AreEntriesBelow problem.now.entries.items }
    requires right { AreNumbersSmall problem.now.right.items }
    requires first { AreNumbersSmall problem.now.first.items }
    requires second { AreNumbersSmall problem.now.second.items }
    ensures { IfOk result (λ found. IfSome found (λ table. ShowsColumns (program_of problem.now) table
        (first_tableau (program_of problem.now)))) }
{
    let mut columns = zero_columns(alloc, problem.cols)?;
    if !put_entries(
        &mut columns,
        problem.entries.as_slice(),
        problem.right.as_slice(),
    )? {
        return Ok(None);
    }
    if !put_costs(
        &mut columns,
        problem.rows,
        problem.first.as_slice(),
        problem.second.as_slice(),
    )? {
        return Ok(None);
    }
    if !push_units(alloc, &mut columns, problem.rows)? {
        return Ok(None);
    }
    let Some(right) = right_column(alloc, problem.right.as_slice())? else {
        return Ok(None);
    };
    let basis = first_basis(alloc, problem.rows as usize, problem.cols as usize)?;
    let lists = first_lists(alloc, columns.as_slice(), problem.rows)?;
    let room = room_of(lists.as_slice());
    let marks = vec![in alloc; false; columns.len()]?;
    Ok(Some(ColumnTable {
        columns,
        right,
        basis,
        lists,
        room,
        marks,
        first: 0,
        rows: problem.rows,
        width: problem.cols,
    }))
}

/// This many columns of zeros.
fn zero_columns(alloc: Global, count: u32) -> Result<Vec<Column>, AllocError>
    ensures { IfOk result (λ columns. AreColumns columns.items count (λ _ _. pos 0)) }
{
    let mut columns = Vec::with_capacity(alloc, count as usize)?;
    for _ in 0..count {
        columns.push(Column::zeros(alloc))?;
    }
    Ok(columns)
}

/// Puts the entries into columns of zeros, with the signs of the right sides. Returns whether each entry fits.
fn put_entries(
    columns: &mut Vec<Column>,
    entries: &[Entry],
    right: &[i128],
) -> Result<bool, AllocError>
    requires cells { AreInCells (length right.now) (length columns.old.items) entries.now }
    requires small { AreEntriesBelow entries.now }
    requires zeros { AreColumns columns.old.items (length columns.old.items) (λ _ _. pos 0) }
    ensures { IfOk result (λ is_put. is_put ≡ true → AreColumns columns.new.items (length columns.old.items)
        (entries_at entries.now right.now)) }
{
    for position in 0..entries.len() {
        let entry = entries[position];
        if !put_entry(columns, entry, right[entry.row as usize])? {
            return Ok(false);
        }
    }
    Ok(true)
}

/// Puts an entry into its column, with the sign of its row's right side. Returns whether it fits.
fn put_entry(columns: &mut Vec<Column>, entry: Entry, right: i128) -> Result<bool, AllocError>
    requires column { entry.col < length columns.old.items }
    requires small { unsigned_abs entry.value < number_limit }
    ensures { IfOk result (λ is_put. is_put ≡ true → (n : ℕ) (g : ℕ → ℕ → ℤ)
        → AreColumns columns.old.items n g
        → AreColumns columns.new.items n (with_entry entry (sign_of right *ℤ entry.value) g)) }
{
    columns[entry.col as usize].put(entry.row, narrow(signed(entry.value, right)))
}

/// A number below 2^31 in absolute value, as one of 64 bits.
fn narrow(number: i128) -> i64
    requires { unsigned_abs number < number_limit }
    ensures { result ≡ number }
{
    number as i64
}

/// Puts the cost rows, which follow the equations, into the columns. Returns whether each number fits.
fn put_costs(
    columns: &mut Vec<Column>,
    rows: u32,
    first: &[i128],
    second: &[i128],
) -> Result<bool, AllocError>
    requires rows { rows < 2 ^ 31 }
    requires first { length first.now ≡ length columns.old.items }
    requires first_small { AreNumbersSmall first.now }
    requires second { length second.now ≡ length columns.old.items }
    requires second_small { AreNumbersSmall second.now }
    ensures { IfOk result (λ is_put. is_put ≡ true → (g : ℕ → ℕ → ℤ)
        → AreColumns columns.old.items (length first.now) g → ((i j : ℕ) → rows ≤ i → g i j ≡ pos 0)
        → AreColumns columns.new.items (length first.now)
        (with_cost_columns rows g first.now second.now (length first.now))) }
{
    for position in 0..first.len() {
        if !put_column_costs(
            &mut columns[position],
            rows,
            first[position],
            second[position],
        )? {
            return Ok(false);
        }
    }
    Ok(true)
}

/// Puts the numbers of the cost rows, which follow the equations, into a column. Returns whether each fits.
fn put_column_costs(
    column: &mut Column,
    rows: u32,
    first: i128,
    second: i128,
) -> Result<bool, AllocError>
    requires rows { rows < 2 ^ 31 }
    requires first { unsigned_abs first < number_limit }
    requires second { unsigned_abs second < number_limit }
    ensures { IfOk result (λ is_put. is_put ≡ true → IsCosted column.old column.new rows first second) }
{
    let Some(sum) = column.cells().total() else {
        return Ok(false);
    };
    let Some(less) = negated(sum) else {
        return Ok(false);
    };
    if !column.put(rows, less)? {
        return Ok(false);
    }
    if !column.put(rows + 1, narrow(first))? {
        return Ok(false);
    }
    column.put(rows + 2, narrow(second))
}

/// The negation of a number. None if it doesn't fit.
fn negated(number: i64) -> Option<i64>
    ensures { IfSome result (λ z. z ≡ pos 0 -ℤ number) }
{
    if number == i64::MIN {
        return None;
    }
    Some(-number)
}

/// Adds a column for each artificial unknown.
fn push_units(alloc: Global, columns: &mut Vec<Column>, rows: u32) -> Result<bool, AllocError>
    ensures { IfOk result (λ is_put. is_put ≡ true → (n : ℕ) (g : ℕ → ℕ → ℤ)
        → AreColumns columns.old.items n g → AreColumns columns.new.items (n + rows) (with_units n g)) }
{
    for row in 0..rows {
        let mut column = Column::zeros(alloc);
        if !column.put(row, 1)? {
            return Ok(false);
        }
        columns.push(column)?;
    }
    Ok(true)
}

/// The column of the right sides, made at least 0 by their signs. None if one doesn't fit.
fn right_column(alloc: Global, right: &[i128]) -> Result<Option<Column>, AllocError>
    requires length { length right.now < 2 ^ 31 }
    requires small { AreNumbersSmall right.now }
    ensures { IfOk result (λ found. IfSome found (λ column. HasSides column right.now (length right.now))) }
{
    let mut column = Column::zeros(alloc);
    for row in 0..right.len() {
        if !column.put(row as u32, narrow(signed(right[row], right[row])))? {
            return Ok(None);
        }
    }
    Ok(Some(column))
}
