//! The answers on linear programs.

ghost use Rattle.simplex_core.specs.Problem.{IsProper};

use crate::linear_programs::task_of;
use crate::words::{fraction_text, push_fractions};
use frac128::Frac;
use model::Memory;
use sample_questions::is_proper;
use simplex_core::{Problem, SolveError, Solved, solve, solve_scaled};
use std::alloc::{AllocError, Global};

/// The answer of a call on a linear program: of `solve`, the end with its pivots, its numbers and, after a bar, the
/// basis, or the limit that was exceeded; of `scale`, the same in integers; of `costs`, the costs of the solution.
pub(crate) fn of_program(alloc: Global, call: &str, text: &str) -> Result<String, Memory> {
    let Some(task) = task_of(alloc, text)? else {
        return String::from_str(alloc, "no linear program");
    };
    if !is_proper(&task.problem) {
        return String::from_str(alloc, "not proper");
    }
    match call {
        "scale" => format!(in alloc; "{:?}", solve_scaled(alloc, &task.problem, task.pivots)?),
        "costs" => costs_text(alloc, &task.problem, task.pivots),
        _ => match solve(alloc, &task.problem, task.pivots) {
            Ok(solved) => solved_text(alloc, &solved),
            Err(error) => limit_text(alloc, error),
        },
    }
}

// An end of the simplex method as text.
fn solved_text(alloc: Global, solved: &Solved) -> Result<String, Memory> {
    match solved {
        Solved::Optimal { at, basis, pivots } => {
            let mut text = format!(in alloc; "optimal {pivots}:")?;
            push_fractions(alloc, &mut text, at.as_slice())?;
            text.push_str(" |")?;
            for column in basis.as_slice() {
                text.push_str(format!(in alloc; " {column}")?.as_str())?;
            }
            Ok(text)
        }
        Solved::Infeasible { dual, pivots } => {
            let mut text = format!(in alloc; "infeasible {pivots}:")?;
            push_fractions(alloc, &mut text, dual.as_slice())?;
            Ok(text)
        }
    }
}

/// The limit that was exceeded, as text.
pub(crate) fn limit_text(alloc: Global, error: SolveError) -> Result<String, Memory> {
    match error {
        SolveError::Range { pivot } => format!(in alloc; "range {pivot}"),
        SolveError::Budget { pivots } => format!(in alloc; "budget {pivots}"),
        SolveError::Wide { entries } => format!(in alloc; "wide {entries}"),
        SolveError::Memory => Err(AllocError),
    }
}

/// How large a linear program is, its pivots, how many columns are basic in the end, and both costs of its solution.
pub(crate) fn costs_text(alloc: Global, problem: &Problem, pivots: u32) -> Result<String, Memory>
    requires { IsProper problem.now }
{
    match solve(alloc, problem, pivots) {
        Ok(Solved::Optimal { at, basis, pivots }) => {
            let first = fraction_text(alloc, total(&problem.first, &at))?;
            let second = fraction_text(alloc, total(&problem.second, &at))?;
            let (rows, cols, basic) = (problem.rows, problem.cols, basis.len());
            format!(in alloc;
                "{rows} by {cols}, {pivots} pivots, {basic} basic, costs {first} {second}"
            )
        }
        Ok(Solved::Infeasible { .. }) => String::from_str(alloc, "no solution"),
        Err(error) => limit_text(alloc, error),
    }
}

// The cost of a solution.
fn total(costs: &[i128], at: &[Frac]) -> Option<Frac> {
    let mut sum = Frac::default();
    for (cost, value) in costs.iter().zip(at) {
        let cost = Frac::new(*cost, 1).ok()?;
        sum = sum.add(cost.mul(*value).ok()?).ok()?;
    }
    Some(sum)
}
