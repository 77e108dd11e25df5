//! Eliminates the free columns before the pivots begin, and finds the first basic columns.

use crate::error::SolveError;
use crate::line::{negated, number_at};
use crate::program::{Column, LinearProgram};
use crate::tableau::{Row, Tableau};
use std::alloc::Global;

impl Tableau {
    /// Eliminates each free column by the shortest row that has it. A free column that no row has stays 0.
    pub(crate) fn eliminate_free(
        &mut self,
        alloc: Global,
        columns: &[Column],
    ) -> Result<(), SolveError> {
        let mut column = 0u32;
        for described in columns {
            if described.is_free {
                self.eliminate(alloc, column)?;
            }
            column = column.checked_add(1).ok_or(SolveError::Range)?;
        }
        Ok(())
    }

    // Eliminates a column by the shortest row that has it.
    fn eliminate(&mut self, alloc: Global, column: u32) -> Result<(), SolveError> {
        let Some(index) = shortest_with(&self.rows, column) else {
            return Ok(());
        };
        if let Some(row) = self.cleared_by(alloc, index, column)? {
            self.eliminated.push(row)?;
        }
        Ok(())
    }

    /// Gives each row a right side of at least 0 and, where one of its columns is in no other row and fits, that as its basic
    /// column.
    pub(crate) fn find_basis(
        &mut self,
        alloc: Global,
        program: &LinearProgram,
    ) -> Result<(), SolveError> {
        let counts = occurrences(alloc, &self.rows, program.columns.len())?;
        for row in &mut self.rows {
            if row.line.right < 0 {
                row.line = negated(alloc, &row.line)?;
            }
            take_lone_column(alloc, row, &counts)?;
        }
        Ok(())
    }
}

// The index of the row with the fewest entries among those that have a column.
fn shortest_with(rows: &[Row], column: u32) -> Option<usize> {
    let mut best = None;
    let mut least = usize::MAX;
    for (index, row) in rows.iter().enumerate() {
        if row.line.entries.len() < least && number_at(&row.line, column) != 0 {
            least = row.line.entries.len();
            best = Some(index);
        }
    }
    best
}

// In how many rows each column is.
fn occurrences(alloc: Global, rows: &[Row], columns: usize) -> Result<Vec<u32>, SolveError> {
    let mut counts = vec![in alloc; 0u32; columns]?;
    for row in rows {
        for entry in &row.line.entries {
            if let Some(count) = counts.get_mut(entry.column as usize) {
                *count = count.saturating_add(1);
            }
        }
    }
    Ok(counts)
}

// Makes a column that is in no other row basic, where its number has the sign of the right side or that is 0. A basic
// column's cost is cleared later.
fn take_lone_column(alloc: Global, row: &mut Row, counts: &[u32]) -> Result<(), SolveError> {
    let is_zero = row.line.right == 0;
    let found = row.line.entries.iter().find(|e| (e.value > 0 || is_zero)
        && counts.get(e.column as usize).copied() == Some(1));
    let Some(entry) = found else {
        return Ok(());
    };
    let entry = *entry;
    if entry.value < 0 {
        row.line = negated(alloc, &row.line)?;
    }
    row.basic = Some(entry.column);
    Ok(())
}
