//! Chooses the leaving row, by least ratios.

ghost use Rattle.std.specs.Prelude.{◌≡◌, ◌+◌, ◌*◌, ◌<◌, ℤ, ◌*ℤ◌, IfSome, int_lt};
ghost use Rattle.linear_forms.specs.LinearProgram.{LinearProgram};
ghost use Rattle.simplex_core.specs.Tableau.{Tableau, unknowns};
ghost use Rattle.simplex_core.specs.Bland.{goes_before};
ghost use Rattle.simplex_core.specs.Cells.{IsBestOf};
ghost use Rattle.simplex_core.specs.Cells.{AreSmall, Shows};

use crate::arithmetic::cross_product;
use crate::sparse_table::SparseTable;

impl SparseTable {
    /// The leaving row of a column, if a row has an entry above 0 there.
    pub(super) fn leaving_row(&self, column: usize) -> Option<usize>
        requires small { AreSmall self.now }
        requires column { column < self.now.columns }
        ensures within { IfSome result (λ r. r < self.now.rows) }
        ensures best { (p : LinearProgram) (t : Tableau) → Shows p self.now t → IsBestOf p t column p.rows result }
    {
        let mut best = None;
        for row in 0..self.rows {
            best = self.better(column, row, best);
        }
        best
    }

    /// The better of a row and the best row before it.
    fn better(&self, column: usize, row: usize, best: Option<usize>) -> Option<usize>
        requires small { AreSmall self.now }
        requires row { row < self.now.rows }
        requires column { column < self.now.columns }
        requires best { IfSome best (λ r. r < self.now.rows) }
        ensures within { IfSome result (λ r. r < self.now.rows) }
        ensures best { (p : LinearProgram) (t : Tableau) → Shows p self.now t
            → IsBestOf p t column row best → IsBestOf p t column (row + 1) result }
    {
        if !self.is_positive_at(row, column) {
            return best;
        }
        match best {
            None => Some(row),
            Some(before) => {
                if self.goes_before(column, row, before) {
                    Some(row)
                } else {
                    Some(before)
                }
            }
        }
    }

    /// Whether row `i` is a better leaving row than row `r`: it has a lesser quotient of right side by entry in the
    /// column, or the same and a lesser basic column.
    fn goes_before(&self, column: usize, i: usize, r: usize) -> bool
        requires small { AreSmall self.now }
        requires i { i < self.now.rows }
        requires r { r < self.now.rows }
        requires column { column < self.now.columns }
        ensures { (p : LinearProgram) (t : Tableau) → Shows p self.now t → result ≡ goes_before p t column i r }
    {
        if self.has_lesser_quotient(column, i, r) {
            return true;
        }
        if self.has_lesser_quotient(column, r, i) {
            return false;
        }
        self.basis[i] < self.basis[r]
    }

    /// Whether row `i` has a lesser quotient of right side by entry in the column than row `r`.
    fn has_lesser_quotient(&self, column: usize, i: usize, r: usize) -> bool
        requires small { AreSmall self.now }
        requires i { i < self.now.rows }
        requires r { r < self.now.rows }
        requires column { column < self.now.columns }
        ensures { (p : LinearProgram) (t : Tableau) → Shows p self.now t
            → result ≡ int_lt (t.entry i (unknowns p) *ℤ t.entry r column)
            (t.entry r (unknowns p) *ℤ t.entry i column) }
    {
        let unknowns = self.columns + self.rows;
        let right_i = self.at(i, unknowns);
        let entry_i = self.at(i, column);
        let right_r = self.at(r, unknowns);
        let entry_r = self.at(r, column);
        let left = cross_product(right_i, entry_r, right_r, entry_i);
        let right = cross_product(right_r, entry_i, right_i, entry_r);
        left < right
    }
}
