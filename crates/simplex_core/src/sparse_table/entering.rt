//! Chooses the entering column, or finds that the linear program is infeasible.

ghost use Rattle.std.specs.Prelude.{◌≡◌, ◌+◌, ◌<◌, pos, int_lt, nat_le, nat_lt, ◌&&◌};
ghost use Rattle.int_laws.specs.NormalForm.{is_zero};
ghost use Rattle.linear_forms.specs.LinearProgram.{LinearProgram};
ghost use Rattle.simplex_core.specs.Tableau.{Tableau, unknowns, cost_row};
ghost use Rattle.simplex_core.specs.Search.{least};
ghost use Rattle.simplex_core.specs.Bland.{may_enter, has_artificial};
ghost use Rattle.simplex_core.specs.Cells.{width, Shows};

use crate::sparse_table::SparseTable;

impl SparseTable {
    /// The least column that may enter by a cost row.
    pub(super) fn least_entering(&self, cost: usize) -> Option<usize>
        requires { cost < 3 }
        ensures { (p : LinearProgram) (t : Tableau) → Shows p self.now t
            → result ≡ least p.columns (may_enter p t cost) }
    {
        let line = self.line(self.rows + cost);
        for index in 0..line.len() {
            let (column, _) = line.entry(index);
            if self.is_entering(cost, column as usize) {
                return Some(column as usize);
            }
        }
        None
    }

    /// Whether a column is one of the program's and may enter by this cost row.
    fn is_entering(&self, cost: usize, column: usize) -> bool
        requires { cost < 3 }
        ensures { (p : LinearProgram) (t : Tableau) → Shows p self.now t
            → result ≡ (nat_lt column p.columns && may_enter p t cost column) }
    {
        if column >= self.columns {
            return false;
        }
        self.may_enter(cost, column)
    }

    /// Whether a column may enter by this cost row.
    fn may_enter(&self, cost: usize, column: usize) -> bool
        requires cost { cost < 3 }
        requires column { column < self.now.columns }
        ensures { (p : LinearProgram) (t : Tableau) → Shows p self.now t → result ≡ may_enter p t cost column }
    {
        if !self.is_negative_at(self.rows + cost, column) {
            return false;
        }
        for before in 0..cost {
            if !self.is_zero_at(self.rows + before, column) {
                return false;
            }
        }
        true
    }

    /// Whether an artificial unknown is above 0.
    pub(super) fn has_artificial(&self) -> bool
        ensures { (p : LinearProgram) (t : Tableau) → Shows p self.now t
            → result ≡ has_artificial p t }
    {
        for row in 0..self.rows {
            if self.is_artificial_over_zero(row) {
                return true;
            }
        }
        false
    }

    /// Whether a row is solved for an artificial unknown, and its right side is above 0.
    fn is_artificial_over_zero(&self, row: usize) -> bool
        requires { row < self.now.rows }
        ensures { (p : LinearProgram) (t : Tableau) → Shows p self.now t
            → result ≡ (nat_le p.columns (t.basis row) && int_lt (pos 0) (t.entry row (unknowns p))) }
    {
        if (self.basis[row] as usize) < self.columns {
            return false;
        }
        self.is_positive_at(row, self.columns + self.rows)
    }

    /// Whether a number is below 0.
    fn is_negative_at(&self, row: usize, column: usize) -> bool
        requires row { row < self.now.rows + 3 }
        requires column { column < self.now.columns }
        ensures { (p : LinearProgram) (t : Tableau) → Shows p self.now t
            → result ≡ int_lt (t.entry row column) (pos 0) }
    {
        self.at(row, column).num < 0
    }

    /// Whether a number is 0.
    fn is_zero_at(&self, row: usize, column: usize) -> bool
        requires row { row < self.now.rows + 3 }
        requires column { column < self.now.columns }
        ensures { (p : LinearProgram) (t : Tableau) → Shows p self.now t → result ≡ is_zero (t.entry row column) }
    {
        self.at(row, column).num == 0
    }

    /// Whether a number of an equation, or its right side, is above 0.
    pub(super) fn is_positive_at(&self, row: usize, column: usize) -> bool
        requires row { row < self.now.rows }
        requires column { column < width self.now }
        ensures { (p : LinearProgram) (t : Tableau) → Shows p self.now t
            → result ≡ int_lt (pos 0) (t.entry row column) }
    {
        self.at(row, column).num > 0
    }
}
