//! Chooses the leaving row, by least ratios.

ghost use Rattle.std.specs.Prelude.{◌≡◌, ℕ, ◌+◌, ◌<◌, pos, ◌<ℤ◌, ◌*ℤ◌, Some, None, IfSome, MatchOption, int_lt, List};
ghost use Rattle.std.specs.Prelude.{slice_get, false};
ghost use Rattle.linear_forms.specs.LinearProgram.{LinearProgram};
ghost use Rattle.sparse_columns.specs.declared.cell.Cell.{Cell};
ghost use Rattle.simplex_core.specs.Tableau.{Tableau, unknowns};
ghost use Rattle.simplex_core.specs.Bland.{goes_before, is_candidate, IsBest};
ghost use Rattle.simplex_core.specs.ColumnTables.{ShowsColumns, IsCellOf, IsBestCell};

use crate::column_table::ColumnTable;
use sparse_columns::{Cell, product};

impl ColumnTable {
    /// The cell of the leaving row in a column, if a row has an entry above 0 there.
    pub(super) fn leaving_cell(&self, column: usize) -> Option<Cell>
        requires { column < self.now.width }
        ensures within { IfSome result (λ d. IsCellOf self.now column d × (pos 0 <ℤ d.number)) }
        ensures best { (p : LinearProgram) (t : Tableau) → ShowsColumns p self.now t
            → MatchOption result ((i : ℕ) → i < p.rows → is_candidate t column i ≡ false)
            (λ d. IsBest p t column p.rows d.row) }
    {
        let cells = self.columns[column].cells().before(self.rows);
        let mut best = None;
        for cell in cells {
            best = self.better(column, *cell, best);
        }
        best
    }

    /// The better of a cell of a column and the best cell before it.
    fn better(&self, column: usize, cell: Cell, best: Option<Cell>) -> Option<Cell>
        requires column { column < self.now.width }
        requires cell { IsCellOf self.now column cell }
        requires best { IfSome best (λ d. IsCellOf self.now column d × (pos 0 <ℤ d.number)) }
        ensures within { IfSome result (λ d. IsCellOf self.now column d × (pos 0 <ℤ d.number)) }
        ensures best { (p : LinearProgram) (t : Tableau) (cells : List Cell) (k : ℕ) → ShowsColumns p self.now t
            → slice_get cells k ≡ Some cell → IsBestCell p t column cells k best
            → IsBestCell p t column cells (k + 1) result }
    {
        if cell.value() < 0 {
            return best;
        }
        match best {
            None => Some(cell),
            Some(before) => {
                if self.goes_before(column, cell, before) {
                    Some(cell)
                } else {
                    best
                }
            }
        }
    }

    /// Whether the row of one cell of a column is a better leaving row than that of another: it has a lesser quotient
    /// of right side by number, or the same and a lesser basic column.
    fn goes_before(&self, column: usize, a: Cell, b: Cell) -> bool
        requires column { column < self.now.width }
        requires a { IsCellOf self.now column a }
        requires b { IsCellOf self.now column b }
        ensures { (p : LinearProgram) (t : Tableau) → ShowsColumns p self.now t
            → result ≡ goes_before p t column a.row b.row }
    {
        if self.has_lesser_quotient(column, a, b) {
            return true;
        }
        if self.has_lesser_quotient(column, b, a) {
            return false;
        }
        self.basis[a.row as usize] < self.basis[b.row as usize]
    }

    /// Whether the row of one cell of a column has a lesser quotient of right side by number than that of another.
    fn has_lesser_quotient(&self, column: usize, a: Cell, b: Cell) -> bool
        requires column { column < self.now.width }
        requires a { IsCellOf self.now column a }
        requires b { IsCellOf self.now column b }
        ensures { (p : LinearProgram) (t : Tableau) → ShowsColumns p self.now t
            → result ≡ int_lt (t.entry a.row (unknowns p) *ℤ t.entry b.row column)
            (t.entry b.row (unknowns p) *ℤ t.entry a.row column) }
    {
        let left = product(self.right.at(a.row), b.value());
        let right = product(self.right.at(b.row), a.value());
        left < right
    }
}
