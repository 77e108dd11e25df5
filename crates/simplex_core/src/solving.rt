//! `solve`: the public call.

ghost use Rattle.std.specs.Prelude.{MatchBool, MatchResult, IfSome};
ghost use Rattle.simplex_core.specs.Tableau.{first_tableau};
ghost use Rattle.simplex_core.specs.Problem.{program_of, IsProper};
ghost use Rattle.simplex_core.specs.Numbers.{HasSmallNumbers};
ghost use Rattle.simplex_core.specs.Outcome.{IsInRange, IsAnswer, IsEnd, IsLimitHit};

use crate::checking::{are_below, are_entries_below};
use crate::column_table::first_columns;
use crate::problem::{Problem, SolveError, Solved};
use crate::sequence::{Halt, run};
use crate::sparse_table::{first_table, tested};
use std::alloc::Global;

/// The greatest number of numbers that the equations of a table may have.
const WIDEST: u64 = 40_000_000_000;

/// Whether the numbers of a problem are below 2^31; else the first tableau is out of range.
fn has_small_numbers(problem: &Problem) -> bool
    requires { IsProper problem.now }
    ensures { MatchBool result (HasSmallNumbers problem.now)
        (¬ IsInRange (program_of problem.now) (first_tableau (program_of problem.now))) }
{
    if !are_entries_below(problem.entries.as_slice()) {
        return false;
    }
    if !are_below(problem.right.as_slice()) {
        return false;
    }
    if !are_below(problem.first.as_slice()) {
        return false;
    }
    are_below(problem.second.as_slice())
}

/// Solves a linear program by the simplex method with Bland's rule. Precondition: rows and columns are below 2^31,
/// entries lie inside the table and no cell has two, there is a right side for each row, and there are two costs, each
/// at least 0, for each column.
///
/// It follows Bland's sequence of tableaux, which starts with artificial unknowns, for at most `pivots` pivots.
/// `Optimal` is a solution of least cost, compared by the first costs and then by the second (`least_costs_least`
/// defines it). It is the last basic solution, with 0 for each unknown that isn't basic. `Infeasible` is returned
/// exactly if there is no solution and no limit is exceeded (`outcome_decides_solutions`), with a dual that proves it
/// (`dual_excludes_solutions`). Source: R. G. Bland, New finite pivoting rules for the simplex method, 1977.
///
/// # Errors
///
/// `Wide`, before all others, if the equations of the table would have more than 40,000,000,000 numbers; `Range` at the
/// first tableau with a number out of range; `Budget` if the allowed number of pivots has been made and another is
/// needed; `Memory` if an allocation fails.
pub fn solve(alloc: Global, problem: &Problem, pivots: u32) -> Result<Solved, SolveError>
    requires { IsProper problem.now }
    ensures { IsAnswer (program_of problem.now) pivots result }
{
    let rows = u64::from(problem.rows);
    let entries = rows * (u64::from(problem.cols) + rows + 1);
    if entries > WIDEST {
        return Err(SolveError::Wide { entries });
    }
    if !has_small_numbers(problem) {
        return Err(SolveError::Range { pivot: 0 });
    }
    follow(alloc, problem, pivots)
}

/// Follows the sequence with a table of columns and, if a number doesn't fit there, from the beginning with a table of
/// fractions.
fn follow(alloc: Global, problem: &Problem, pivots: u32) -> Result<Solved, SolveError>
    requires proper { IsProper problem.now }
    requires small { HasSmallNumbers problem.now }
    ensures { MatchResult result (IsEnd (program_of problem.now) pivots) (IsLimitHit (program_of problem.now) pivots) }
{
    match follow_by_columns(alloc, problem, pivots) {
        Ok(Some(solved)) => Ok(solved),
        Ok(None) => follow_by_fractions(alloc, problem, pivots),
        Err(error) => Err(error),
    }
}

/// Follows the sequence with a table of columns. None if a number doesn't fit there.
fn follow_by_columns(
    alloc: Global,
    problem: &Problem,
    pivots: u32,
) -> Result<Option<Solved>, SolveError>
    requires proper { IsProper problem.now }
    requires small { HasSmallNumbers problem.now }
    ensures { MatchResult result (λ found. IfSome found (IsEnd (program_of problem.now) pivots))
        (IsLimitHit (program_of problem.now) pivots) }
{
    let Some(table) = first_columns(alloc, problem)? else {
        return Ok(None);
    };
    match run(alloc, problem, table, pivots) {
        Ok(solved) => Ok(Some(solved)),
        Err(Halt::LimitHit(error)) => Err(error),
        Err(Halt::Beyond) => Ok(None),
    }
}

/// Follows the sequence with a table of fractions, in which each number of a tableau in range fits.
fn follow_by_fractions(alloc: Global, problem: &Problem, pivots: u32) -> Result<Solved, SolveError>
    requires proper { IsProper problem.now }
    requires small { HasSmallNumbers problem.now }
    ensures { MatchResult result (IsEnd (program_of problem.now) pivots) (IsLimitHit (program_of problem.now) pivots) }
{
    let table = first_table(alloc, problem)?;
    match run(alloc, problem, tested(table), pivots) {
        Ok(solved) => Ok(solved),
        Err(Halt::LimitHit(error)) => Err(error),
        Err(Halt::Beyond) => unreachable!(),
    }
}
