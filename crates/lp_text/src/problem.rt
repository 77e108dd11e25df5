//! Builds the problem of a written linear program.

ghost use Rattle.std.specs.Prelude.{◌≡◌, ◌≤◌, ◌+◌, ◌<◌, ◌^◌, map, pos, length, take, IfOk};
ghost use Rattle.std.specs.List.{All};
ghost use Rattle.lp_builder.specs.Entries.{Writes, entries_of as entries_in};
ghost use Rattle.lp_text.specs.Lps.{size_limit};
ghost use Rattle.lp_text.specs.Spelled.{AreCosts, AreNumbers, IsWithin};
ghost use Rattle.lp_text.specs.Problems.{IsProblemOf};
ghost use Rattle.lp_text.specs.Views.{lp_of};

use crate::written::{WrittenLp, WrittenRow};
use lp_builder::EntryWriter;
use simplex_core::{Entry, Problem};
use std::alloc::{AllocError, Global};

impl WrittenLp {
    /// The problem that `solve` takes: only the nonzero numbers, in the order of rows and columns.
    ///
    /// # Errors
    ///
    /// `AllocError` if an allocation fails.
    pub fn to_problem(&self, alloc: Global) -> Result<Problem, AllocError>
        requires { IsWithin (lp_of self.now) }
        ensures { IfOk result (IsProblemOf (lp_of self.now)) }
    {
        Ok(Problem {
            rows: self.rows.len() as u32,
            cols: self.columns as u32,
            entries: entries_of(alloc, &self.rows)?,
            right: right_sides(alloc, &self.rows)?,
            first: costs_of(alloc, &self.first)?,
            second: costs_of(alloc, &self.second)?,
        })
    }
}

// The nonzero numbers of the rows, in the order of rows and columns.
fn entries_of(alloc: Global, rows: &[WrittenRow]) -> Result<Vec<Entry>, AllocError>
    requires few { length rows.now ≤ size_limit }
    requires within { All (λ r. (length r.numbers.items ≤ size_limit) × AreNumbers r.numbers.items) rows.now }
    ensures { IfOk result (λ v. v.items ≡ entries_in 0 (map (λ r. r.numbers.items) rows.now)) }
{
    let mut writer = EntryWriter::new(alloc);
    for row in rows {
        put_numbers(&mut writer, &row.numbers)?;
        writer.next_row();
    }
    Ok(writer.entries)
}

// Writes the numbers of a row.
fn put_numbers(writer: &mut EntryWriter, numbers: &[i128]) -> Result<(), AllocError>
    requires few { writer.old.col + length numbers.now < 2 ^ 32 }
    requires small { AreNumbers numbers.now }
    ensures { IfOk result (λ _. Writes writer.old writer.new numbers.now) }
{
    for number in numbers {
        writer.put(*number)?;
    }
    Ok(())
}

// The right sides of the rows.
fn right_sides(alloc: Global, rows: &[WrittenRow]) -> Result<Vec<i128>, AllocError>
    ensures { IfOk result (λ v. v.items ≡ map (λ r. r.right) rows.now) }
{
    rows.iter().map(|row| row.right).collect(alloc)
}

// Costs as numbers of 128 bits with a sign.
fn costs_of(alloc: Global, costs: &[u128]) -> Result<Vec<i128>, AllocError>
    requires { AreCosts costs.now }
    ensures { IfOk result (λ v. v.items ≡ map pos costs.now) }
{
    let mut numbers = Vec::new(alloc);
    for cost in costs {
        numbers.push(*cost as i128)?;
    }
    Ok(numbers)
}
