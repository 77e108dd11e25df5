//! Checks whether a problem is valid, clause by clause.

ghost use Rattle.std.specs.Prelude.{◌≡◌, ◌≢◌, ℕ, ◌+◌, ◌*◌, ◌^◌, ◌<◌, pos, ◌≤ℤ◌, IsTrue, length, slice_get};
ghost use Rattle.std.specs.Prelude.{slice_index_or, Some};
ghost use Rattle.simplex_core.specs.declared.problem.Entry.{Entry};
ghost use Rattle.simplex_core.specs.Problem.{IsProper};

use simplex_core::{Entry, Problem};

// Whether each number lies inside the table.
fn are_inside(entries: &[Entry], rows: u32, cols: u32) -> bool
    ensures { IsTrue result → (k : ℕ) (e : Entry) → slice_get entries.now k ≡ Some e → (e.row < rows) × (e.col < cols) }
{
    for position in 0..entries.len() {
        if entries[position].row >= rows || entries[position].col >= cols {
            return false;
        }
    }
    true
}

// Whether none of the first numbers is in the cell of this one.
fn is_new(entries: &[Entry], before: usize, entry: Entry) -> bool
    requires { before < length entries.now }
    ensures { IsTrue result → (k : ℕ) (d : Entry) → k < before → slice_get entries.now k ≡ Some d → d.row ≡ entry.row
        → d.col ≢ entry.col }
{
    for position in 0..before {
        if entries[position].row == entry.row && entries[position].col == entry.col {
            return false;
        }
    }
    true
}

// The number of an entry's cell, row by row.
fn cell_of(entry: Entry) -> u64
    ensures { result ≡ entry.row * 2 ^ 32 + entry.col }
{
    u64::from(entry.row) * (1 << 32) + u64::from(entry.col)
}

// Whether the numbers ascend row by row, so that no cell has two.
fn ascend(entries: &[Entry]) -> bool
    ensures { IsTrue result → (k l : ℕ) (d e : Entry) → k < l → slice_get entries.now k ≡ Some d
        → slice_get entries.now l ≡ Some e → d.row ≡ e.row → d.col ≢ e.col }
{
    for position in 1..entries.len() {
        if cell_of(entries[position - 1]) >= cell_of(entries[position]) {
            return false;
        }
    }
    true
}

// Whether no cell has two numbers.
fn are_apart(entries: &[Entry]) -> bool
    ensures { IsTrue result → (k l : ℕ) (d e : Entry) → k < l → slice_get entries.now k ≡ Some d
        → slice_get entries.now l ≡ Some e → d.row ≡ e.row → d.col ≢ e.col }
{
    if ascend(entries) {
        return true;
    }
    for position in 0..entries.len() {
        if !is_new(entries, position, entries[position]) {
            return false;
        }
    }
    true
}

// Whether each number is at least 0.
fn are_nonnegative(numbers: &[i128]) -> bool
    ensures { IsTrue result → (k : ℕ) → k < length numbers.now → pos 0 ≤ℤ slice_index_or numbers.now k (pos 0) }
{
    for position in 0..numbers.len() {
        if numbers[position] < 0 {
            return false;
        }
    }
    true
}

// Whether the lengths fit the numbers of rows and columns.
fn has_lengths(problem: &Problem) -> bool
    ensures right { IsTrue result → length problem.now.right.items ≡ problem.now.rows }
    ensures first { IsTrue result → length problem.now.first.items ≡ problem.now.cols }
    ensures second { IsTrue result → length problem.now.second.items ≡ problem.now.cols }
{
    problem.right.len() == problem.rows as usize
        && problem.first.len() == problem.cols as usize
        && problem.second.len() == problem.cols as usize
}

/// Whether a problem meets the precondition of `solve`.
pub fn is_proper(problem: &Problem) -> bool
    ensures { IsTrue result → IsProper problem.now }
{
    if problem.rows >= 1 << 31 || problem.cols >= 1 << 31 {
        return false;
    }
    if !has_lengths(problem) {
        return false;
    }
    if !are_inside(problem.entries.as_slice(), problem.rows, problem.cols) {
        return false;
    }
    if !are_apart(problem.entries.as_slice()) {
        return false;
    }
    if !are_nonnegative(problem.first.as_slice()) {
        return false;
    }
    are_nonnegative(problem.second.as_slice())
}
