//! The table of columns implements the operations of the simplex loop.

use crate::column_table::ColumnTable;
use crate::simplex_table::{SimplexTable, Unmade};
use frac128::Frac;
use std::alloc::{AllocError, Global};

impl SimplexTable for ColumnTable {
    ghost use Rattle.simplex_core.specs.ColumnTables.{ShowsColumns};

    ghost shows = { ShowsColumns };

    ghost gives_up = { Unit {0} };

    /// Always true: by their type, the numbers of this table are below 2^31.
    fn is_in_range(&self) -> bool {
        true
    }

    fn is_infeasible(&self) -> bool {
        match self.least_entering(0) {
            Some(_) => false,
            None => self.has_artificial(),
        }
    }

    fn entering(&self) -> Option<usize> {
        match self.least_entering(0) {
            Some(column) => Some(column),
            None => match self.least_entering(1) {
                Some(column) => Some(column),
                None => self.least_entering(2),
            },
        }
    }

    fn advance(&mut self, alloc: Global, column: usize) -> Result<(), Unmade> {
        let Some(cell) = self.leaving_cell(column) else {
            unreachable!()
        };
        self.pivot(alloc, cell.row, column)
    }

    fn solution(&self, alloc: Global) -> Result<Vec<Frac>, AllocError> {
        self.basic_numbers(alloc)
    }

    fn basis(&self, alloc: Global) -> Result<Vec<u32>, AllocError> {
        Vec::from_slice(alloc, self.basis.as_slice())
    }

    fn dual(&self, alloc: Global, right: &[i128]) -> Result<Vec<Frac>, AllocError> {
        self.dual_numbers(alloc, right)
    }
}
