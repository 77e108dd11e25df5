//! Reads the basic solution and the dual off the table.

ghost use Rattle.std.specs.Prelude.{◌≡◌, ℕ, ◌+◌, ◌<◌, ◌^◌, ℤ, pos, ◌*ℤ◌, ◌-ℤ◌, ◌<ℤ◌, Some, length, slice_get};
ghost use Rattle.std.specs.Prelude.{unsigned_abs, IfOk, negsuc};
ghost use Rattle.std.specs.Prelude.{if◌then◌else◌};
ghost use Rattle.frac128.specs.Fraction.{IsFraction};
ghost use Rattle.sparse_columns.specs.declared.column.Column.{Column};
ghost use Rattle.sparse_columns.specs.Columns.{numerator};
ghost use Rattle.simplex_core.specs.Tableau.{sign_of};
ghost use Rattle.simplex_core.specs.ColumnResults.{HoldsBasicOf, HoldsDualOf};

use crate::arithmetic::lowest;
use crate::column_table::ColumnTable;
use frac128::Frac;
use std::alloc::{AllocError, Global};

impl ColumnTable {
    /// The basic solution, one number for each column of the program.
    pub(super) fn basic_numbers(&self, alloc: Global) -> Result<Vec<Frac>, AllocError>
        ensures { IfOk result (λ at. HoldsBasicOf self.now self.now.rows at.items) }
    {
        let mut at = vec![in alloc; Frac::whole(0); self.width as usize]?;
        for row in 0..self.rows {
            self.write_basic(row, &mut at);
        }
        Ok(at)
    }

    /// Writes the right side of a row that is solved for a column of the program.
    fn write_basic(&self, row: u32, at: &mut Vec<Frac>)
        requires row { row < self.now.rows }
        requires at { HoldsBasicOf self.now row at.old.items }
        ensures { HoldsBasicOf self.now (row + 1) at.new.items }
    {
        let column = self.basis[row as usize];
        if column < self.width {
            at[column as usize] = fraction(self.right.at(row), self.right.den());
        }
    }

    /// The dual at an end as infeasible, one number for each row.
    pub(super) fn dual_numbers(
        &self,
        alloc: Global,
        right: &[i128],
    ) -> Result<Vec<Frac>, AllocError>
        requires right { length right.now ≡ self.now.rows }
        ensures { IfOk result (λ dual. HoldsDualOf self.now right.now self.now.rows dual.items) }
    {
        let mut dual = Vec::with_capacity(alloc, self.rows as usize)?;
        for row in 0..self.rows {
            dual.push(self.dual_number(row, right[row as usize]))?;
        }
        Ok(dual)
    }

    /// The dual's number of a row with a right side.
    fn dual_number(&self, row: u32, right: i128) -> Frac
        requires row { row < self.now.rows }
        ensures { (x : Column) → slice_get self.now.columns.items (self.now.width + row) ≡ Some x
            → IsFraction result (sign_of right *ℤ (x.den -ℤ numerator x self.now.rows)) x.den }
    {
        let column = &self.columns[self.width as usize + row as usize];
        let less = rest(column.at(self.rows), column.den(), right < 0);
        fraction(less, column.den())
    }
}

/// A denominator less a numerator, or the negation of that.
fn rest(number: i64, den: i64, is_negated: bool) -> i64
    requires number { unsigned_abs number < 2 ^ 31 }
    requires den { unsigned_abs den < 2 ^ 31 }
    ensures value { result ≡ (if is_negated then negsuc 0 else pos 1) *ℤ (den -ℤ number) }
    ensures bounded { unsigned_abs result < 2 ^ 32 }
{
    if is_negated {
        number - den
    } else {
        den - number
    }
}

/// The fraction of a numerator and a denominator above 0.
fn fraction(over: i64, under: i64) -> Frac
    requires over { unsigned_abs over < 2 ^ 32 }
    requires under { unsigned_abs under < 2 ^ 31 }
    requires positive { pos 0 <ℤ under }
    ensures { IsFraction result over under }
{
    lowest(i128::from(over), i128::from(under))
}
