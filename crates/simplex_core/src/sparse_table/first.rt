//! Builds the table of the first tableau.

ghost use Rattle.std.specs.Prelude.{IfOk};
ghost use Rattle.linear_forms.specs.LinearProgram.{LinearProgram};
ghost use Rattle.simplex_core.specs.Tableau.{Tableau, first_tableau};
ghost use Rattle.simplex_core.specs.Problem.{program_of, IsProper};
ghost use Rattle.simplex_core.specs.Cells.{Shows, ShowsTested};
ghost use Rattle.simplex_core.specs.Numbers.{AreNumbersSmall, AreEntriesBelow};

use crate::problem::Problem;
use crate::sparse_table::SparseTable;
use crate::sparse_table::numbers::column_sums;
use std::alloc::{AllocError, Global};

/// The table of the first tableau of a problem whose numbers are below 2^31.
pub(crate) fn first_table(alloc: Global, problem: &Problem) -> Result<SparseTable, AllocError>
    requires proper { IsProper problem.now }
    requires entries { AreEntriesBelow problem.now.entries.items }
    requires right { AreNumbersSmall problem.now.right.items }
    requires first { AreNumbersSmall problem.now.first.items }
    requires second { AreNumbersSmall problem.now.second.items }
    ensures { IfOk result (λ table. Shows (program_of problem.now) table (first_tableau (program_of problem.now))) }
{
    let entries = problem.entries.as_slice();
    let right = problem.right.as_slice();
    let mut table = SparseTable::zeros(alloc, problem.rows as usize, problem.cols as usize)?;
    table.write_entries(entries, right)?;
    table.write_rows(right)?;
    let sums = column_sums(alloc, entries, right, problem.cols as usize)?;
    table.write_costs(
        sums.as_slice(),
        problem.first.as_slice(),
        problem.second.as_slice(),
    )?;
    Ok(table)
}

/// The table with its flag set, which says whether all its numbers are below 2^31.
pub(crate) fn tested(table: SparseTable) -> SparseTable
    ensures { (p : LinearProgram) (t : Tableau) → Shows p table t → ShowsTested p result t }
{
    let mut table = table;
    table.is_small = table.are_rows_small();
    table
}
