//! A column: integers over one common denominator.

ghost use Rattle.std.specs.Prelude.{◌≡◌, ℕ, ◌<◌, ◌^◌, ℤ, pos, ◌-ℤ◌, ◌*ℤ◌, ◌<ℤ◌, unsigned_abs, IfOk, IfSome, true};
ghost use Rattle.sparse_columns.specs.Numbers.{alone, number, number_of};
ghost use Rattle.sparse_columns.specs.Wide.{wide_number};

use crate::cell::{Cell, LIMIT};
use crate::cells::Cells;
use crate::narrow::combined_cells;
use crate::ratio::{Ratio, common_divisor};
use crate::wide::{Wide, combined, product};
use std::alloc::{AllocError, Global};

/// A column: integers, row by row, over one denominator.
#[derive(Debug, Drop)]
pub struct Column {
    cells: Cells,
    den: i64,
    ghost positive: { pos 0 <ℤ den },
    ghost small: { unsigned_abs den < 2 ^ 31 },
}

impl Column {
    ghost use Rattle.sparse_columns.specs.Columns.{numerator, IsCleared, IsCombination, IsMultiple, PutsNumerator};

    /// The column of zeros.
    pub fn zeros(alloc: Global) -> Column
        ensures numbers { (i : ℕ) → numerator result i ≡ pos 0 }
        ensures den { result.den ≡ pos 1 }
    {
        Column {
            cells: Cells::new(alloc),
            den: 1,
        }
    }

    /// Appends a numerator in a row, if the row comes after all others and the numerator is below 2^31 in absolute
    /// value; a 0 is not stored. Returns whether it could be appended.
    ///
    /// # Errors
    ///
    /// `AllocError` if an allocation fails.
    pub fn put(&mut self, row: u32, value: i64) -> Result<bool, AllocError>
        ensures { IfOk result (λ is_put. is_put ≡ true → PutsNumerator self.old self.new row value) }
    {
        self.cells.put(row, value)
    }

    /// The nonzero numerators.
    pub fn cells(&self) -> &Cells
        ensures { (i : ℕ) → number result.now i ≡ numerator self.now i }
    {
        &self.cells
    }

    /// The numerator in a row.
    pub fn at(&self, row: u32) -> i64
        ensures value { result ≡ numerator self.now row }
        ensures bounded { unsigned_abs result < 2 ^ 31 }
    {
        self.cells.at(row)
    }

    /// The numerator in a row, searched from the end, which is fast for one of the last rows.
    pub fn late(&self, row: u32) -> i64
        ensures value { result ≡ numerator self.now row }
        ensures bounded { unsigned_abs result < 2 ^ 31 }
    {
        self.cells.late(row)
    }

    /// The denominator.
    pub fn den(&self) -> i64
        ensures value { result ≡ self.now.den }
        ensures positive { pos 0 <ℤ result }
        ensures small { unsigned_abs result < 2 ^ 31 }
    {
        self.den
    }

    /// The numerators, with the denominator subtracted in one row. None if a number is too large.
    ///
    /// # Errors
    ///
    /// `AllocError` if an allocation fails.
    pub fn shifted(&self, alloc: Global, row: u32) -> Result<Option<Cells>, AllocError>
        ensures { IfOk result (λ found. IfSome found (λ cells. (i : ℕ)
            → number cells i ≡ numerator self.now i -ℤ alone row self.now.den i)) }
    {
        let mut own = Cells::with_capacity(alloc, 1)?;
        if !own.put(row, self.den)? {
            return Ok(None);
        }
        combined_cells(alloc, self.cells.as_slice(), 1, own.as_slice(), -1)
    }

    /// The column minus the multiple of another one that changes its number in a row to the number divided by the
    /// pivot. The other one's numbers are reduced by its denominator in this row beforehand. None if a number is too
    /// large.
    ///
    /// # Errors
    ///
    /// `AllocError` if an allocation fails.
    pub fn cleared(
        &self,
        alloc: Global,
        row: u32,
        pivot: i64,
        shifted: &[Cell],
    ) -> Result<Option<Column>, AllocError>
        requires pivot { unsigned_abs pivot < 2 ^ 31 }
        requires positive { pos 0 <ℤ pivot }
        ensures { IfOk result (λ cleared. IfSome cleared (λ column. IsCleared self.now column row pivot shifted.now)) }
    {
        let ratio = Ratio::new(self.cells.at(row), pivot);
        let den = product(self.den, ratio.under);
        Column::combination(
            alloc,
            self.cells.as_slice(),
            ratio.under,
            shifted,
            -ratio.over,
            den,
        )
    }

    /// The column of the left numbers times one factor plus the right ones times another, over a denominator; if they
    /// would be too large, all are divided by a common divisor. None if they are too large even then.
    fn combination(
        alloc: Global,
        left: &[Cell],
        left_factor: i64,
        right: &[Cell],
        right_factor: i64,
        den: i64,
    ) -> Result<Option<Column>, AllocError>
        requires left { unsigned_abs left_factor < 2 ^ 31 }
        requires right { unsigned_abs right_factor < 2 ^ 31 }
        requires den { pos 0 <ℤ den }
        ensures { IfOk result (λ found. IfSome found (λ column.
            IsCombination column left.now left_factor right.now right_factor den)) }
    {
        match Column::at_once(alloc, left, left_factor, right, right_factor, den)? {
            Some(column) => Ok(Some(column)),
            None => Column::by_divisor(alloc, left, left_factor, right, right_factor, den),
        }
    }

    /// The same column, if the numbers fit without division.
    fn at_once(
        alloc: Global,
        left: &[Cell],
        left_factor: i64,
        right: &[Cell],
        right_factor: i64,
        den: i64,
    ) -> Result<Option<Column>, AllocError>
        requires left { unsigned_abs left_factor < 2 ^ 31 }
        requires right { unsigned_abs right_factor < 2 ^ 31 }
        requires den { pos 0 <ℤ den }
        ensures { IfOk result (λ found. IfSome found (λ column.
            IsCombination column left.now left_factor right.now right_factor den)) }
    {
        if den.unsigned_abs() >= LIMIT {
            return Ok(None);
        }
        match combined_cells(alloc, left, left_factor, right, right_factor)? {
            Some(cells) => Ok(Some(Column { cells, den })),
            None => Ok(None),
        }
    }

    /// The same column, if the numbers fit after division by a common divisor.
    fn by_divisor(
        alloc: Global,
        left: &[Cell],
        left_factor: i64,
        right: &[Cell],
        right_factor: i64,
        den: i64,
    ) -> Result<Option<Column>, AllocError>
        requires left { unsigned_abs left_factor < 2 ^ 31 }
        requires right { unsigned_abs right_factor < 2 ^ 31 }
        requires den { pos 0 <ℤ den }
        ensures { IfOk result (λ found. IfSome found (λ column.
            IsCombination column left.now left_factor right.now right_factor den)) }
    {
        let Some(wide) = combined(alloc, left, left_factor, right, right_factor)? else {
            return Ok(None);
        };
        let divisor = divisor_of(wide.as_slice(), den);
        Column::divided(alloc, wide.as_slice(), den, divisor)
    }

    /// The column of numbers over a denominator, all divided by a number. None if it doesn't divide one of them, or a
    /// quotient is too large.
    fn divided(
        alloc: Global,
        wide: &[Wide],
        den: i64,
        divisor: i64,
    ) -> Result<Option<Column>, AllocError>
        requires den { pos 0 <ℤ den }
        requires divisor { pos 0 <ℤ divisor }
        ensures { IfOk result (λ found. IfSome found (λ column. IsMultiple column wide.now den)) }
    {
        let Some(den) = quotient(den, divisor) else {
            return Ok(None);
        };
        if den.unsigned_abs() >= LIMIT {
            return Ok(None);
        }
        match divided_cells(alloc, wide, divisor)? {
            Some(cells) => Ok(Some(Column { cells, den })),
            None => Ok(None),
        }
    }
}

/// The numbers, all divided by a number. None if it doesn't divide one of them, or a quotient is too large.
fn divided_cells(alloc: Global, wide: &[Wide], divisor: i64) -> Result<Option<Cells>, AllocError>
    requires { pos 0 <ℤ divisor }
    ensures { IfOk result (λ found. IfSome found (λ cells. (i : ℕ)
        → number cells i *ℤ divisor ≡ wide_number wide.now i)) }
{
    let mut cells = Cells::with_capacity(alloc, wide.len())?;
    for number in wide {
        let Some(quotient) = quotient(number.number, divisor) else {
            return Ok(None);
        };
        if !cells.put(number.row, quotient)? {
            return Ok(None);
        }
    }
    Ok(Some(cells))
}

/// A common divisor of the numbers and the denominator.
fn divisor_of(wide: &[Wide], den: i64) -> i64
    requires { pos 0 <ℤ den }
    ensures { pos 0 <ℤ result }
{
    let mut divisor = den;
    for number in wide {
        divisor = common_divisor(number.number, divisor);
    }
    divisor
}

/// The quotient by a number above 0. None if that isn't a divisor.
fn quotient(value: i64, divisor: i64) -> Option<i64>
    requires { pos 0 <ℤ divisor }
    ensures { IfSome result (λ quotient. quotient *ℤ divisor ≡ value) }
{
    if divisor == 1 {
        return Some(value);
    }
    if value % divisor != 0 {
        return None;
    }
    Some(value / divisor)
}
