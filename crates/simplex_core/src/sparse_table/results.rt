//! Reads the basic solution and the dual off the table.

ghost use Rattle.std.specs.Prelude.{◌≡◌, ◌+◌, ◌*◌, ◌<◌, ℤ, ◌*ℤ◌, ◌-ℤ◌, Some, length, IfOk};
ghost use Rattle.frac128.specs.declared.frac.Frac.{Frac};
ghost use Rattle.frac128.specs.Fraction.{IsFraction};
ghost use Rattle.simplex_core.specs.Tableau.{sign_of};
ghost use Rattle.simplex_core.specs.Cells.{cell, AreSmall, HoldsBasic, HoldsDual};

use crate::arithmetic::one_less;
use crate::sparse_table::SparseTable;
use frac128::Frac;
use std::alloc::{AllocError, Global};

impl SparseTable {
    /// The basic solution, one number for each column of the program.
    pub(super) fn basic_numbers(&self, alloc: Global) -> Result<Vec<Frac>, AllocError>
        ensures { IfOk result (λ at. HoldsBasic self.now self.now.rows at.items) }
    {
        let mut at = vec![in alloc; Frac::whole(0); self.columns]?;
        for row in 0..self.rows {
            self.write_basic(row, &mut at);
        }
        Ok(at)
    }

    /// Writes the right side of a row that is solved for a column of the program.
    fn write_basic(&self, row: usize, at: &mut Vec<Frac>)
        requires row { row < self.now.rows }
        requires at { HoldsBasic self.now row at.old.items }
        ensures { HoldsBasic self.now (row + 1) at.new.items }
    {
        let column = self.basis[row] as usize;
        if column < self.columns {
            at[column] = self.at(row, self.columns + self.rows);
        }
    }

    /// The dual at an end as infeasible, one number for each row.
    pub(super) fn dual_numbers(
        &self,
        alloc: Global,
        right: &[i128],
    ) -> Result<Vec<Frac>, AllocError>
        requires small { AreSmall self.now }
        requires right { length right.now ≡ self.now.rows }
        ensures { IfOk result (λ dual. HoldsDual self.now right.now self.now.rows dual.items) }
    {
        let mut dual = Vec::with_capacity(alloc, self.rows)?;
        for row in 0..self.rows {
            dual.push(self.dual_number(row, right[row]))?;
        }
        Ok(dual)
    }

    /// The dual's number of a row with a right side.
    fn dual_number(&self, row: usize, right: i128) -> Frac
        requires small { AreSmall self.now }
        requires row { row < self.now.rows }
        ensures { (x : Frac) → cell self.now self.now.rows (self.now.columns + row) ≡ Some x
            → IsFraction result (sign_of right *ℤ (x.den -ℤ x.num)) x.den }
    {
        one_less(self.at(self.rows, self.columns + row), right < 0)
    }
}
