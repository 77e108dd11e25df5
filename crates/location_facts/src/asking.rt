//! Asks, by a linear program, whether a goal follows from rows.

ghost use Rattle.std.specs.Prelude.{◌^◌, ◌+◌, ◌<◌, map, length, IfOk};
ghost use Rattle.std.specs.List.{All};
ghost use Rattle.lp_builder.specs.Descriptions.{IsWritable};
ghost use Rattle.poly_terms.specs.Views.{form_of};
ghost use Rattle.rule_questions.specs.Programs.{IsProblemOf};
ghost use Rattle.location_facts.specs.Kept.{goal_question};
ghost use Rattle.location_facts.specs.Replies.{IsReply};

use farkas_cert::Scaled;
use lp_builder::Builder;
use poly_terms::{Memory, Row};
use rule_questions::{element_from, multipliers_from};
use simplex_core::{Answer, Problem, solve_scaled};
use std::alloc::Global;

/// The answer to whether a goal follows from rows.
#[derive(Drop)]
pub(crate) enum Reply {
    /// Multipliers of the rows that certify a multiple of the goal, and the factor.
    Follows(Vec<u64>, u64),
    /// A point or a ray of the rows at which the goal is below 0.
    Fails(Scaled),
    /// The linear program exceeds a limit.
    OutOfLimits,
}

/// Whether a goal follows from rows over this many unknowns: `Follows` is returned exactly if the linear program that
/// asks it has a solution and hits no limit within this many pivots.
///
/// # Errors
///
/// `Memory` if an allocation fails.
pub(crate) fn ask(
    alloc: Global,
    unknowns: u32,
    rows: &[Row],
    goal: &Row,
    pivots: u32,
) -> Result<Reply, Memory>
    requires few_unknowns { unknowns + 1 < 2 ^ 31 }
    requires few_rows { length rows.now + 1 < 2 ^ 31 }
    requires rows { All (λ r. IsWritable unknowns (form_of r)) rows.now }
    requires goal { IsWritable unknowns (form_of goal.now) }
    ensures { IfOk result (IsReply pivots unknowns (map form_of rows.now) (form_of goal.now)) }
{
    let problem = goal_problem(alloc, unknowns, rows, goal)?;
    match solve_scaled(alloc, &problem, pivots)? {
        Answer::Solution(solution) => {
            let multipliers = multipliers_from(alloc, &solution.numbers, 0, rows.len())?;
            let times = solution.den as u64;
            Ok(Reply::Follows(multipliers, times))
        }
        Answer::Dual(dual) => {
            let element = element_from(alloc, &dual.numbers, 0, unknowns as usize)?;
            Ok(Reply::Fails(element))
        }
        Answer::OutOfLimits(_) => Ok(Reply::OutOfLimits),
    }
}

// The problem that asks whether a goal follows from rows.
fn goal_problem(alloc: Global, unknowns: u32, rows: &[Row], goal: &Row) -> Result<Problem, Memory>
    requires few_unknowns { unknowns + 1 < 2 ^ 31 }
    requires few_rows { length rows.now + 1 < 2 ^ 31 }
    requires rows { All (λ r. IsWritable unknowns (form_of r)) rows.now }
    requires goal { IsWritable unknowns (form_of goal.now) }
    ensures { IfOk result (IsProblemOf (goal_question unknowns (map form_of rows.now) (form_of goal.now))) }
{
    let mut builder = Builder::new(alloc, 0);
    builder.add_group(unknowns, rows, &[], goal)?;
    builder.finish(alloc, &[])
}
