//! The tableau: its lines, and a pivot.

use crate::error::SolveError;
use crate::line::{cleared, negated, number_at};
use crate::program::{Entry, Equation, LinearProgram};
use std::alloc::Global;

/// How many numbers looking at a row is worth.
const ROW_WORK: u64 = 4;

/// How many numbers an entry of a program is worth that is made a tableau.
const ENTRY_WORK: u64 = 8;

/// A line and its basic column, at which the line has a positive number. Without a basic column the line has an
/// artificial unknown of its own, which is what is left of the right side.
#[derive(Debug, Drop)]
pub(crate) struct Row {
    pub(crate) basic: Option<u32>,
    pub(crate) line: Equation,
}

/// The lines of a linear program.
#[derive(Debug, Drop)]
pub(crate) struct Tableau {
    pub(crate) rows: Vec<Row>,
    /// What the columns cost beside the basic ones, each number a positive multiple of it.
    pub(crate) costs: Equation,
    /// The lines that free columns were eliminated by, in that order. A line has no column of an earlier one.
    pub(crate) eliminated: Vec<Row>,
    /// How many more numbers of lines may be gone through.
    pub(crate) work: u64,
}

/// The lines of a program, without basic columns.
pub(crate) fn tableau_of(
    alloc: Global,
    program: &LinearProgram,
    work: u64,
) -> Result<Tableau, SolveError> {
    let mut rows = Vec::with_capacity(alloc, program.equations.len())?;
    for equation in &program.equations {
        let entries = equation.entries.as_slice().to_vec(alloc)?;
        let line = Equation {
            entries,
            right: equation.right,
        };
        rows.push(Row { basic: None, line })?;
    }
    Ok(Tableau {
        rows,
        costs: cost_line(alloc, program)?,
        eliminated: Vec::new(alloc),
        work,
    })
}

// The costs of the columns as a line.
fn cost_line(alloc: Global, program: &LinearProgram) -> Result<Equation, SolveError> {
    let mut entries = Vec::new(alloc);
    let mut column = 0u32;
    for described in &program.columns {
        if described.cost != 0 {
            entries.push(Entry {
                column,
                value: described.cost,
            })?;
        }
        column = column.checked_add(1).ok_or(SolveError::Range)?;
    }
    Ok(Equation { entries, right: 0 })
}

impl Tableau {
    // Counts numbers of lines that were gone through.
    fn spend(&mut self, numbers: u64) -> Result<(), SolveError> {
        self.work = self.work.checked_sub(numbers).ok_or(SolveError::Budget)?;
        Ok(())
    }

    /// Counts the entries of the first lines.
    pub(crate) fn spend_on_entries(&mut self) -> Result<(), SolveError> {
        let mut entries = self.costs.entries.len() as u64;
        for row in &self.rows {
            entries = entries.saturating_add(row.line.entries.len() as u64);
        }
        self.spend(entries.saturating_mul(ENTRY_WORK))
    }

    /// Takes the row with an index out, with a positive number at a column and that as its basic column, and clears all
    /// others there. None where there is no such row.
    pub(crate) fn cleared_by(
        &mut self,
        alloc: Global,
        index: usize,
        column: u32,
    ) -> Result<Option<Row>, SolveError> {
        if index >= self.rows.len() {
            return Ok(None);
        }
        let row = self.rows.swap_remove(index);
        let line = if number_at(&row.line, column) < 0 {
            negated(alloc, &row.line)?
        } else {
            row.line
        };
        let by = line.entries.len() as u64;
        let mut numbers = self.costs.entries.len() as u64;
        for other in &mut self.rows {
            numbers = numbers.saturating_add(ROW_WORK);
            if number_at(&other.line, column) != 0 {
                let own = other.line.entries.len() as u64;
                numbers = numbers.saturating_add(own).saturating_add(by);
                other.line = cleared(alloc, &other.line, &line, column)?;
            }
        }
        self.spend(numbers)?;
        if number_at(&self.costs, column) != 0 {
            self.costs = cleared(alloc, &self.costs, &line, column)?;
        }
        Ok(Some(Row {
            basic: Some(column),
            line,
        }))
    }

    /// Pivots: the column becomes basic in the row with an index.
    pub(crate) fn pivot(
        &mut self,
        alloc: Global,
        index: usize,
        column: u32,
    ) -> Result<(), SolveError> {
        if let Some(row) = self.cleared_by(alloc, index, column)? {
            self.rows.push(row)?;
        }
        Ok(())
    }
}
