//! The values of the columns at the end.

use crate::error::SolveError;
use crate::line::number_at;
use crate::numbers::{common_divisor, divided, product};
use crate::program::{Equation, Solution};
use crate::tableau::{Row, Tableau};
use std::alloc::Global;

impl Tableau {
    /// The values where each basic column has what its row gives, each eliminated one what its line gives, and all others
    /// are 0.
    pub(crate) fn solution(&self, alloc: Global, columns: usize) -> Result<Solution, SolveError> {
        let mut solution = Solution {
            numerators: vec![in alloc; 0i128; columns]?,
            den: 1,
        };
        for row in &self.rows {
            set_value(&mut solution, row)?;
        }
        for row in self.eliminated.iter().rev() {
            set_value(&mut solution, row)?;
        }
        reduce(&mut solution);
        Ok(solution)
    }
}

// Sets the basic column of a row to what the row gives with the other values.
fn set_value(solution: &mut Solution, row: &Row) -> Result<(), SolveError> {
    let Some(basic) = row.basic else {
        return Ok(());
    };
    let number = number_at(&row.line, basic);
    if number <= 0 {
        return Err(SolveError::Range);
    }
    let rest = rest_of(solution, &row.line, basic)?;
    let divisor = common_divisor(rest, number);
    scale(solution, divided(number, divisor))?;
    if let Some(value) = solution.numerators.get_mut(basic as usize) {
        *value = divided(rest, divisor);
    }
    Ok(())
}

// The right side less the other columns at their values, over the common denominator.
fn rest_of(solution: &Solution, line: &Equation, basic: u32) -> Result<i128, SolveError> {
    let mut rest = product(line.right, solution.den)?;
    for entry in &line.entries {
        if entry.column != basic {
            let value = solution
                .numerators
                .get(entry.column as usize)
                .copied()
                .unwrap_or(0);
            let part = product(entry.value, value)?;
            rest = rest.checked_sub(part).ok_or(SolveError::Range)?;
        }
    }
    Ok(rest)
}

// Multiplies all numerators and the denominator.
fn scale(solution: &mut Solution, factor: i128) -> Result<(), SolveError> {
    if factor == 1 {
        return Ok(());
    }
    for value in &mut solution.numerators {
        *value = product(*value, factor)?;
    }
    solution.den = product(solution.den, factor)?;
    Ok(())
}

// Divides all numerators and the denominator by their greatest common divisor.
fn reduce(solution: &mut Solution) {
    let mut divisor = solution.den;
    for value in &solution.numerators {
        divisor = common_divisor(divisor, *value);
    }
    for value in &mut solution.numerators {
        *value = divided(*value, divisor);
    }
    solution.den = divided(solution.den, divisor);
}
