//! A table that stores the nonzero fractions of the tableau, row by row.

mod entering;
mod first;
mod leaving;
mod lines;
mod method;
mod numbers;
mod pivoting;
mod ranges;
mod results;

ghost use Rattle.std.specs.Prelude.{◌≡◌, ℕ, ◌+◌, ◌<◌, ◌≤◌, ◌^◌, length};
ghost use Rattle.simplex_core.specs.Lines.{AreBounded};

pub(crate) use first::{first_table, tested};
use frac128::Frac;
pub(crate) use numbers::first_basis;
use sparse_rows::SparseRow;

/// The fractions of a tableau. There is a line for each equation, and then one for each of the three cost rows; a line
/// has the program's unknowns, and then the artificial ones. The right sides of the equations are stored separately.
/// `is_small` says whether all numbers are below 2^31.
#[derive(Debug, Drop)]
pub(crate) struct SparseTable {
    lines: Vec<SparseRow>,
    right: Vec<Frac>,
    basis: Vec<u32>,
    rows: usize,
    columns: usize,
    is_small: bool,
    ghost shape: { length lines.items ≡ rows + 3 },
    ghost sides: { length right.items ≡ rows },
    ghost based: { length basis.items ≡ rows },
    ghost few_rows: { rows < 2 ^ 31 },
    ghost few_columns: { columns < 2 ^ 31 },
    ghost bounded: { AreBounded lines.items (columns + rows) },
}

impl SparseTable {
    ghost use Rattle.std.specs.Prelude.{Some};
    ghost use Rattle.frac128.specs.declared.frac.Frac.{Frac};
    ghost use Rattle.simplex_core.specs.Cells.{width, cell, ChangesCell, IsLineOf, SetsLine};
    ghost use Rattle.simplex_core.specs.Lines.{IsBounded};

    /// The line of a row.
    fn line(&self, row: usize) -> &SparseRow
        requires { row < self.now.rows + 3 }
        ensures { IsLineOf self.now row result.now }
    {
        &self.lines[row]
    }

    /// The number in a row and a column, if it is in the table: a cost row has no right side.
    fn at(&self, row: usize, column: usize) -> Frac
        requires row { row < self.now.rows + 3 }
        requires column { column < width self.now }
        requires cost { self.now.rows ≤ row → column < self.now.columns + self.now.rows }
        ensures { cell self.now row column ≡ Some result }
    {
        if column == self.columns + self.rows {
            self.right[row]
        } else {
            self.line(row).at(column as u32)
        }
    }

    /// Replaces the line of a row.
    fn set_line(&mut self, row: usize, line: SparseRow)
        requires row { row < self.old.rows + 3 }
        requires bounded { IsBounded line (self.old.columns + self.old.rows) }
        ensures { SetsLine self.old self.new row line }
    {
        self.lines[row] = line;
    }

    /// Writes a right side.
    fn set_side(&mut self, row: usize, number: Frac)
        requires row { row < self.old.rows }
        ensures changes { ChangesCell self.old self.new row (self.old.columns + self.old.rows) }
        ensures written { cell self.new row (self.old.columns + self.old.rows) ≡ Some number }
    {
        self.right[row] = number;
    }
}
