//! A question as parts, which are written one by one.

ghost use Rattle.std.specs.Prelude.{◌<◌, ◌^◌, IsTrue, IfOk, IfSome, length};
ghost use Rattle.simplex_core.specs.Problem.{IsProper};
ghost use Rattle.lp_builder.specs.Descriptions.{AreWritable};

use crate::writable::{are_goals_writable, are_parameters, are_rows_writable, is_writable};
use lp_builder::{Builder, Cost, Goal, Row};
use model::Memory;
use simplex_core::Problem;
use std::alloc::Global;

/// A group of a question.
#[derive(Debug, Drop)]
pub struct Part {
    /// The number of its unknowns.
    pub unknowns: u32,
    /// The rows from which its goal has to follow.
    pub rows: Vec<Row>,
    /// The goal forms, in the order of their parameters.
    pub goals: Vec<Goal>,
    /// The fixed form.
    pub fixed: Row,
}

/// Whether a part can be written for this many parameters.
fn is_part(parameters: u32, part: &Part) -> bool
    ensures writable { IsTrue result
        → AreWritable parameters part.now.unknowns part.now.rows.items part.now.goals.items part.now.fixed }
    ensures few_unknowns { IsTrue result → part.now.unknowns < 2 ^ 30 }
    ensures few_rows { IsTrue result → length part.now.rows.items < 2 ^ 30 }
{
    part.unknowns < 1 << 30
        && part.rows.len() < 1 << 30
        && are_parameters(parameters, &part.goals)
        && are_rows_writable(part.unknowns, &part.rows)
        && are_goals_writable(part.unknowns, &part.goals)
        && is_writable(part.unknowns, &part.fixed)
}

/// The problem of the question with these parts, whose parameters have these costs, if it can be written.
///
/// # Errors
///
/// `Memory` where an allocation fails.
pub fn problem_of(alloc: Global, parts: &[Part], costs: &[Cost]) -> Result<Option<Problem>, Memory>
    ensures { IfOk result (λ found. IfSome found IsProper) }
{
    if costs.len() >= 1 << 30 {
        return Ok(None);
    }
    let parameters = costs.len() as u32;
    let mut builder = Builder::new(alloc, parameters);
    let mut rows: u32 = 0;
    let mut columns = 2 * parameters;
    for part in parts {
        if !is_part(parameters, part) {
            return Ok(None);
        }
        rows += part.unknowns + 1;
        columns += part.rows.len() as u32 + 1;
        if rows >= 1 << 31 || columns >= 1 << 31 {
            return Ok(None);
        }
        builder.add_group(part.unknowns, &part.rows, &part.goals, &part.fixed)?;
    }
    Ok(Some(builder.finish(alloc, costs)?))
}
