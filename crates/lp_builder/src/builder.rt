//! Builds the problem of a question, group by group.

ghost use Rattle.std.specs.Prelude.{◌≡◌, ℕ, ◌+◌, ◌*◌, ◌<◌, ◌^◌, [], length, IfOk};

use crate::costs::{first_costs, second_costs};
use crate::description::{Cost, Goal};
use crate::line::{Line, put_line};
use crate::writer::EntryWriter;
use model::Memory;
use poly_terms::Row;
use simplex_core::Problem;
use std::alloc::Global;

/// The lines of the groups written so far, for a question with this many parameters. `columns` is the number of columns
/// of the groups.
#[derive(Debug, Drop)]
pub struct Builder {
    writer: EntryWriter,
    right: Vec<i128>,
    parameters: u32,
    columns: u32,
}

impl Builder {
    ghost use Rattle.lp_builder.specs.Builders.{parameter_count, row_count, column_count, AtRowStart, Holds, Adds};
    ghost use Rattle.lp_builder.specs.Builders.{IsBuilt};
    ghost use Rattle.lp_builder.specs.Descriptions.{group_of, AreWritable};

    /// A builder that has written no group.
    pub fn new(alloc: Global, parameters: u32) -> Builder
        requires { parameters < 2 ^ 30 }
        ensures ready { AtRowStart result }
        ensures holds { Holds result [] }
        ensures parameters { parameter_count result ≡ parameters }
        ensures rows { row_count result ≡ 0 }
        ensures columns { column_count result ≡ 2 * parameters }
    {
        Builder {
            writer: EntryWriter::new(alloc),
            right: Vec::new(alloc),
            parameters,
            columns: 0,
        }
    }

    /// Writes a group. Its goal, which has to follow from its rows, is the sum of the goal forms, each times its
    /// parameter, and the fixed form.
    ///
    /// # Errors
    ///
    /// `Memory` if an allocation fails; the contents are then unspecified.
    pub fn add_group(
        &mut self,
        unknowns: u32,
        rows: &[Row],
        goals: &[Goal],
        fixed: &Row,
    ) -> Result<(), Memory>
        requires ready { AtRowStart self.old }
        requires writable { AreWritable (parameter_count self.old) unknowns rows.now goals.now fixed.now }
        requires few_rows { row_count self.old + unknowns + 1 < 2 ^ 31 }
        requires few_columns { column_count self.old + length rows.now + 1 < 2 ^ 31 }
        ensures { IfOk result (λ _. Adds self.old self.new (group_of (parameter_count self.old) unknowns rows.now
            goals.now fixed.now)) }
    {
        for number in 0..unknowns + 1 {
            let line = Line { unknowns, number };
            put_line(
                &mut self.writer,
                line,
                self.parameters,
                self.columns,
                goals,
                rows,
            )?;
            self.writer.next_row();
            self.right.push(line.less(fixed))?;
        }
        self.columns += rows.len() as u32 + 1;
        Ok(())
    }

    /// The problem of the groups, whose parameters have these costs.
    ///
    /// # Errors
    ///
    /// `Memory` if an allocation fails.
    pub fn finish(self, alloc: Global, costs: &[Cost]) -> Result<Problem, Memory>
        requires ready { AtRowStart self }
        requires costs { length costs.now ≡ parameter_count self }
        ensures { IfOk result (λ p. IsBuilt self costs.now p) }
    {
        let first = first_costs(alloc, costs, self.columns)?;
        let second = second_costs(alloc, costs, self.columns)?;
        let Builder {
            writer,
            right,
            parameters,
            columns,
        } = self;
        Ok(Problem {
            rows: writer.row,
            cols: 2 * parameters + columns,
            entries: writer.entries,
            right,
            first,
            second,
        })
    }
}
