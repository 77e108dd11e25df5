//! Linear programs over rows: multipliers by which rows have no point, and least values of forms at their points.

use integer_pivoting::{
    Answer, Column, Entry, Equation, LinearProgram, Solution, SolveError, solve,
};
use poly_terms::{Memory, Row};
use refined_programs::Multipliers;
use std::alloc::{AllocError, Global};

// The most work of a linear program, in table entries that are visited; one that would take more counts as unsolved.
const WORK_LIMIT: u64 = 300_000;

/// A number over a positive denominator.
#[derive(Clone, Copy, Debug)]
pub(crate) struct Fraction {
    numerator: i128,
    den: i128,
}

/// Multipliers by which the rows add up to a constant below 0, so that they have no point; none where none were found.
///
/// # Errors
///
/// `Memory` where an allocation fails.
pub(crate) fn refutation(alloc: Global, rows: &[Row]) -> Result<Option<Multipliers>, Memory> {
    let mut equations = coefficient_equations(alloc, rows, &[])?;
    let mut below = constant_entries(alloc, rows)?;
    let slack = saturating_u32(rows.len());
    below.push(Entry {
        column: slack,
        value: 1,
    })?;
    equations.push(Equation {
        entries: below,
        right: -1,
    })?;
    let mut columns = Vec::new(alloc);
    for _ in rows {
        columns.push(multiplier_column(1))?;
    }
    columns.push(multiplier_column(0))?;
    let program = LinearProgram { columns, equations };
    match solution_of(alloc, &program)? {
        Some(solution) => multipliers_in(alloc, rows, &solution),
        None => Ok(None),
    }
}

/// The least number that multiples of rows which add up to the coefficients of a form have as the sum of their constants:
/// the form without its constant is nowhere below the opposite of it. None where none was found.
///
/// # Errors
///
/// `Memory` where an allocation fails.
pub(crate) fn least_sum(
    alloc: Global,
    rows: &[Row],
    form: &Row,
) -> Result<Option<Fraction>, Memory> {
    let equations = coefficient_equations(alloc, rows, &form.coefs)?;
    let mut columns = Vec::new(alloc);
    for row in rows {
        columns.push(multiplier_column(row.constant))?;
    }
    let program = LinearProgram { columns, equations };
    match solution_of(alloc, &program)? {
        Some(solution) => Ok(constant_sum(rows, &solution)),
        None => Ok(None),
    }
}

impl Fraction {
    /// Whether this number is at most a constant; false also where a number is beyond 128 bits.
    pub(crate) fn is_at_most(self, constant: i128) -> bool {
        match constant.checked_mul(self.den) {
            Some(high) => high >= self.numerator,
            None => false,
        }
    }

    /// Whether this number is less than a constant plus 1, so that over integers it is at most the constant; false also
    /// where a number is beyond 128 bits.
    pub(crate) fn is_below_successor_of(self, constant: i128) -> bool {
        match constant.saturating_add(1).checked_mul(self.den) {
            Some(high) => high > self.numerator,
            None => false,
        }
    }
}

// The column of a multiplier, with what a unit of it costs.
fn multiplier_column(cost: i128) -> Column {
    Column {
        cost,
        is_free: false,
    }
}

// The equations by which multiples of rows add up to coefficients, 0 past their end.
fn coefficient_equations(
    alloc: Global,
    rows: &[Row],
    coefs: &[i128],
) -> Result<Vec<Equation>, Memory> {
    let mut equations = Vec::new(alloc);
    for unknown in 0..width_of(rows).max(coefs.len()) {
        let mut entries = Vec::new(alloc);
        let mut column = 0u32;
        for row in rows {
            let value = number_at(&row.coefs, unknown);
            if value != 0 {
                entries.push(Entry { column, value })?;
            }
            column = column.saturating_add(1);
        }
        let right = number_at(coefs, unknown);
        if right != 0 || !entries.is_empty() {
            equations.push(Equation { entries, right })?;
        }
    }
    Ok(equations)
}

// The constants of rows as entries.
fn constant_entries(alloc: Global, rows: &[Row]) -> Result<Vec<Entry>, Memory> {
    let mut entries = Vec::new(alloc);
    let mut column = 0u32;
    for row in rows {
        if row.constant != 0 {
            entries.push(Entry {
                column,
                value: row.constant,
            })?;
        }
        column = column.saturating_add(1);
    }
    Ok(entries)
}

// How many unknowns the rows are over.
fn width_of(rows: &[Row]) -> usize {
    let mut width = 0usize;
    for row in rows {
        width = width.max(row.coefs.len());
    }
    width
}

// A solution of a linear program that costs least, where one is found.
fn solution_of(alloc: Global, program: &LinearProgram) -> Result<Option<Solution>, Memory> {
    let mut work = WORK_LIMIT;
    match solve(alloc, program, &mut work) {
        Ok(Answer::Optimal(solution)) => Ok(Some(solution)),
        Ok(Answer::Infeasible | Answer::Unbounded) => Ok(None),
        Err(SolveError::Memory) => Err(AllocError),
        Err(SolveError::Range | SolveError::Budget) => Ok(None),
    }
}

// The multipliers of rows in a solution, where they have 64 bits.
fn multipliers_in(
    alloc: Global,
    rows: &[Row],
    solution: &Solution,
) -> Result<Option<Multipliers>, Memory> {
    let mut numbers = Vec::new(alloc);
    for (_, number) in rows.iter().zip(solution.numerators.iter()) {
        let Ok(number) = u64::try_from(*number) else {
            return Ok(None);
        };
        numbers.push(number)?;
    }
    Ok(Some(Multipliers { numbers }))
}

// The sum of the constants of rows, each times its multiplier; none where it is beyond 128 bits.
fn constant_sum(rows: &[Row], solution: &Solution) -> Option<Fraction> {
    let mut numerator = 0i128;
    for (row, number) in rows.iter().zip(solution.numerators.iter()) {
        numerator = numerator.checked_add(row.constant.checked_mul(*number)?)?;
    }
    Some(Fraction {
        numerator,
        den: solution.den,
    })
}

// The number at a position, 0 past the end.
fn number_at(numbers: &[i128], position: usize) -> i128 {
    numbers.get(position).copied().unwrap_or(0)
}

// A number as a `u32`, or the greatest number that a `u32` holds.
fn saturating_u32(number: usize) -> u32 {
    u32::try_from(number).unwrap_or(u32::MAX)
}
