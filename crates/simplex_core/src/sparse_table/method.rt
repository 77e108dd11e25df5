//! The table of fractions implements the operations of the simplex loop.

use crate::simplex_table::{SimplexTable, Unmade};
use crate::sparse_table::SparseTable;
use frac128::Frac;
use std::alloc::{AllocError, Global};

impl SimplexTable for SparseTable {
    ghost use Rattle.simplex_core.specs.Cells.{ShowsTested};

    ghost shows = { ShowsTested };

    ghost gives_up = { ⊥ };

    fn is_in_range(&self) -> bool {
        self.is_small
    }

    fn is_infeasible(&self) -> bool {
        match self.least_entering(0) {
            Some(_) => false,
            None => self.has_artificial(),
        }
    }

    fn entering(&self) -> Option<usize> {
        match self.least_entering(0) {
            Some(column) => Some(column),
            None => match self.least_entering(1) {
                Some(column) => Some(column),
                None => self.least_entering(2),
            },
        }
    }

    fn advance(&mut self, alloc: Global, column: usize) -> Result<(), Unmade> {
        let Some(row) = self.leaving_row(column) else {
            unreachable!()
        };
        self.pivot(alloc, row, column)?;
        Ok(())
    }

    fn solution(&self, alloc: Global) -> Result<Vec<Frac>, AllocError> {
        self.basic_numbers(alloc)
    }

    fn basis(&self, alloc: Global) -> Result<Vec<u32>, AllocError> {
        Vec::from_slice(alloc, self.basis.as_slice())
    }

    fn dual(&self, alloc: Global, right: &[i128]) -> Result<Vec<Frac>, AllocError> {
        self.dual_numbers(alloc, right)
    }
}
