//! A linear program that is being written.

use crate::error::{SearchError, as_number, sum};
use integer_pivoting::{Column, Entry, Equation, LinearProgram};
use std::alloc::Global;

/// The columns and equations written so far.
#[derive(Debug, Drop)]
pub(crate) struct Draft {
    columns: Vec<Column>,
    equations: Vec<Equation>,
}

impl Draft {
    /// A draft without columns and equations.
    pub(crate) fn new(alloc: Global) -> Draft {
        Draft {
            columns: Vec::new(alloc),
            equations: Vec::new(alloc),
        }
    }

    /// Appends a column, and gives its number.
    pub(crate) fn column(&mut self, cost: i128, is_free: bool) -> Result<u32, SearchError> {
        let number = as_number(self.columns.len())?;
        self.columns.push(Column { cost, is_free })?;
        Ok(number)
    }

    /// Appends the equation of entries, which may be in any order, and several at a column. An equation of nothing but
    /// zeros is left out.
    pub(crate) fn equation(&mut self, entries: Vec<Entry>, right: i128) -> Result<(), SearchError> {
        let entries = joined(entries)?;
        if !entries.is_empty() || right != 0 {
            self.equations.push(Equation { entries, right })?;
        }
        Ok(())
    }

    /// The linear program.
    pub(crate) fn finish(self) -> LinearProgram {
        let Draft { columns, equations } = self;
        LinearProgram { columns, equations }
    }
}

// Entries in ascending order of columns, with those at one column added, and without zeros.
fn joined(entries: Vec<Entry>) -> Result<Vec<Entry>, SearchError> {
    let mut entries = entries;
    entries.sort_unstable_by_key(|e| e.column);
    let mut made: Vec<Entry> = Vec::new(*entries.allocator());
    for entry in &entries {
        let before = made.pop();
        match before {
            Some(last) if last.column == entry.column => made.push(Entry {
                column: last.column,
                value: sum(last.value, entry.value)?,
            })?,
            Some(last) => {
                made.push(last)?;
                made.push(*entry)?;
            }
            None => made.push(*entry)?,
        }
    }
    made.retain(|e| e.value != 0);
    Ok(made)
}
