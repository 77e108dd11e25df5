//! Rank questions of shapes of rules.

ghost use Rattle.simplex_core.specs.Problem.{IsProper};

use model::Memory;
use sample_questions::{Shape, rank_problem};
use simplex_core::{Problem, Solved, solve};
use std::alloc::Global;

// More pivots than any of the shapes takes.
const PIVOTS: u32 = 1_000_000;

/// The rows, the columns and the pivots of the rank problem of a shape and a size, as in `ring 8`; 0 pivots if it isn't
/// solved at all.
pub(crate) fn rank(alloc: Global, text: &str, times: u32) -> Result<String, Memory> {
    let (word, size) = text.split_once(' ').unwrap_or((text, ""));
    let shape = match word {
        "ring" => Shape::Ring,
        "chain" => Shape::Chain,
        _ => Shape::Loops,
    };
    match rank_problem(alloc, shape, size.parse::<u16>().unwrap_or(0))? {
        None => String::from_str(alloc, "can't be written"),
        Some(problem) => match pivots_of(alloc, &problem, times) {
            None => String::from_str(alloc, "a limit is exceeded"),
            Some(pivots) => format!(in alloc; "{} {} {pivots}", problem.rows, problem.cols),
        },
    }
}

// The pivots to the end, or nothing where a limit is exceeded.
fn pivots_of(alloc: Global, problem: &Problem, times: u32) -> Option<u32>
    requires { IsProper problem.now }
{
    let mut found = 0;
    for _ in 0..times {
        found = match solve(alloc, problem, PIVOTS) {
            Ok(Solved::Optimal { pivots, .. }) => pivots,
            Ok(Solved::Infeasible { pivots, .. }) => pivots,
            Err(_) => return None,
        };
    }
    Some(found)
}
