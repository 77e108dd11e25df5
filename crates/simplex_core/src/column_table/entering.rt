//! Chooses the entering column, or finds that the linear program is infeasible.

ghost use Rattle.std.specs.Prelude.{◌≡◌, ◌+◌, ◌<◌, ◌≤◌, pos, None, int_lt, nat_le, ◌&&◌};
ghost use Rattle.int_laws.specs.NormalForm.{is_zero};
ghost use Rattle.linear_forms.specs.LinearProgram.{LinearProgram};
ghost use Rattle.simplex_core.specs.Tableau.{Tableau, unknowns};
ghost use Rattle.simplex_core.specs.Search.{least};
ghost use Rattle.simplex_core.specs.Bland.{may_enter, has_artificial};
ghost use Rattle.simplex_core.specs.ColumnTables.{ShowsColumns};

use crate::column_table::ColumnTable;

impl ColumnTable {
    /// The least column that may enter by a cost row.
    pub(super) fn least_entering(&self, cost: u32) -> Option<usize>
        requires { cost < 3 }
        ensures { (p : LinearProgram) (t : Tableau) → ShowsColumns p self.now t
            → result ≡ least p.columns (may_enter p t cost) }
    {
        for column in self.start(cost)..self.width as usize {
            if self.may_enter(cost, column) {
                return Some(column);
            }
        }
        None
    }

    /// A column such that none before it may enter by this cost row.
    fn start(&self, cost: u32) -> usize
        ensures within { result ≤ self.now.width }
        ensures none { (p : LinearProgram) (t : Tableau) → ShowsColumns p self.now t
            → least result (may_enter p t cost) ≡ None }
    {
        if cost == 0 {
            return self.first as usize;
        }
        0
    }

    /// Whether a column may enter by this cost row.
    fn may_enter(&self, cost: u32, column: usize) -> bool
        requires cost { cost < 3 }
        requires column { column < self.now.width }
        ensures { (p : LinearProgram) (t : Tableau) → ShowsColumns p self.now t
            → result ≡ may_enter p t cost column }
    {
        if !self.is_negative_at(self.rows + cost, column) {
            return false;
        }
        for before in 0..cost {
            if !self.is_zero_at(self.rows + before, column) {
                return false;
            }
        }
        true
    }

    /// Whether an artificial unknown is above 0.
    pub(super) fn has_artificial(&self) -> bool
        ensures { (p : LinearProgram) (t : Tableau) → ShowsColumns p self.now t → result ≡ has_artificial p t }
    {
        for row in 0..self.rows {
            if self.is_artificial_over_zero(row) {
                return true;
            }
        }
        false
    }

    /// Whether a row is solved for an artificial unknown, and its right side is above 0.
    fn is_artificial_over_zero(&self, row: u32) -> bool
        requires { row < self.now.rows }
        ensures { (p : LinearProgram) (t : Tableau) → ShowsColumns p self.now t
            → result ≡ (nat_le p.columns (t.basis row) && int_lt (pos 0) (t.entry row (unknowns p))) }
    {
        if self.basis[row as usize] < self.width {
            return false;
        }
        self.right.at(row) > 0
    }

    /// Whether a number is below 0.
    fn is_negative_at(&self, row: u32, column: usize) -> bool
        requires row { row < self.now.rows + 3 }
        requires column { column < self.now.width }
        ensures { (p : LinearProgram) (t : Tableau) → ShowsColumns p self.now t
            → result ≡ int_lt (t.entry row column) (pos 0) }
    {
        self.columns[column].late(row) < 0
    }

    /// Whether a number is 0.
    fn is_zero_at(&self, row: u32, column: usize) -> bool
        requires row { row < self.now.rows + 3 }
        requires column { column < self.now.width }
        ensures { (p : LinearProgram) (t : Tableau) → ShowsColumns p self.now t
            → result ≡ is_zero (t.entry row column) }
    {
        self.columns[column].late(row) == 0
    }
}
