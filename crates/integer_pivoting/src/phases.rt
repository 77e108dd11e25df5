//! The two phases of the simplex method: first the artificial unknowns fall to 0, then the cost falls.

use crate::choosing::{PivotRule, entering, leaving};
use crate::error::SolveError;
use crate::line::{cleared, merged, number_at};
use crate::program::Equation;
use crate::tableau::{Row, Tableau};
use std::alloc::Global;
use std::mem;

/// How many pivots in turn may leave the cost as it is before the first column is taken in place of the best.
const PATIENCE: u32 = 40;

/// How a phase ends.
#[derive(Clone, Copy, Debug, PartialEq, Eq)]
pub(crate) enum PhaseEnd {
    /// No cost is negative.
    Least,
    /// Some column may grow without a limit while the cost falls.
    Falling,
}

impl Tableau {
    /// Pivots until no cost is negative.
    pub(crate) fn minimize(&mut self, alloc: Global) -> Result<PhaseEnd, SolveError> {
        let mut idle = 0u32;
        for _ in 0..u64::MAX {
            let rule = if idle < PATIENCE {
                PivotRule::Dantzig
            } else {
                PivotRule::Bland
            };
            let Some(column) = entering(&self.costs, rule) else {
                return Ok(PhaseEnd::Least);
            };
            let Some(index) = leaving(&self.rows, column, rule)? else {
                return Ok(PhaseEnd::Falling);
            };
            let moves = self.rows.get(index).is_some_and(|row| row.line.right != 0);
            idle = if moves { 0 } else { idle.saturating_add(1) };
            self.pivot(alloc, index, column)?;
        }
        Err(SolveError::Budget)
    }

    /// The first phase: whether some values meet all rows.
    pub(crate) fn reach_feasible(&mut self, alloc: Global) -> Result<bool, SolveError> {
        let artificial = self.artificial_costs(alloc)?;
        let costs = mem::replace(&mut self.costs, artificial);
        self.minimize(alloc)?;
        let is_feasible = self.costs.right == 0;
        self.costs = costs;
        Ok(is_feasible)
    }

    // What the columns cost where each artificial unknown costs 1.
    fn artificial_costs(&self, alloc: Global) -> Result<Equation, SolveError> {
        let mut sum = Equation {
            entries: Vec::new(alloc),
            right: 0,
        };
        for row in &self.rows {
            if row.basic.is_none() {
                sum = less(alloc, &sum, &row.line)?;
            }
        }
        Ok(sum)
    }

    /// Makes a column basic in each row that has an artificial unknown, and leaves out the rows without an entry.
    pub(crate) fn drive_out(&mut self, alloc: Global) -> Result<(), SolveError> {
        for _ in 0..self.rows.len() {
            let Some((index, column)) = artificial_row(&self.rows) else {
                break;
            };
            self.pivot(alloc, index, column)?;
        }
        self.rows.retain(|row| row.basic.is_some());
        Ok(())
    }

    /// Clears the costs of the basic columns.
    pub(crate) fn price_out(&mut self, alloc: Global) -> Result<(), SolveError> {
        for row in &self.rows {
            if let Some(basic) = row.basic {
                if number_at(&self.costs, basic) != 0 {
                    self.costs = cleared(alloc, &self.costs, &row.line, basic)?;
                }
            }
        }
        Ok(())
    }
}

// The first row with an artificial unknown and an entry, and the column of its first entry.
fn artificial_row(rows: &[Row]) -> Option<(usize, u32)> {
    for (index, row) in rows.iter().enumerate() {
        if row.basic.is_none() {
            if let Some(entry) = row.line.entries.first() {
                return Some((index, entry.column));
            }
        }
    }
    None
}

// A line less another.
fn less(alloc: Global, line: &Equation, other: &Equation) -> Result<Equation, SolveError> {
    Ok(Equation {
        entries: merged(alloc, &line.entries, 1, &other.entries, 1)?,
        right: line
            .right
            .checked_sub(other.right)
            .ok_or(SolveError::Range)?,
    })
}
