//! `solve`: the public call.

ghost use Rattle.std.specs.Prelude.{◌≤◌, IfOk};
ghost use Rattle.integer_pivoting.specs.Solutions.{Solves};

use crate::checking::is_solution;
use crate::error::SolveError;
use crate::phases::PhaseEnd;
use crate::program::{Answer, LinearProgram};
use crate::tableau::{Tableau, tableau_of};
use std::alloc::Global;

/// The least cost of a linear program by the simplex method in two phases, with Dantzig's rule, and Bland's after many
/// pivots in turn that leave the cost as it is; free columns are eliminated first. `work` says how many numbers of lines
/// may be gone through by pivots and eliminations, and then how many are left.
///
/// # Errors
///
/// `Budget` where more numbers would have to be gone through; `Range` where a number is beyond 128 bits; `Memory` where
/// memory runs out.
pub fn solve(alloc: Global, program: &LinearProgram, work: &mut u64) -> Result<Answer, SolveError>
    ensures spent { work.new ≤ work.old }
    ensures solved { IfOk result (Solves program.now) }
{
    let mut tableau = tableau_of(alloc, program, *work)?;
    let answer = followed(alloc, program, &mut tableau);
    *work = tableau.work.min(*work);
    answer
}

// The answer of the method from a first tableau on.
fn followed(
    alloc: Global,
    program: &LinearProgram,
    tableau: &mut Tableau,
) -> Result<Answer, SolveError>
    ensures { IfOk result (Solves program.now) }
{
    tableau.spend_on_entries()?;
    tableau.eliminate_free(alloc, &program.columns)?;
    tableau.find_basis(alloc, program)?;
    if !tableau.reach_feasible(alloc)? {
        return Ok(Answer::Infeasible);
    }
    tableau.drive_out(alloc)?;
    tableau.price_out(alloc)?;
    if tableau.minimize(alloc)? == PhaseEnd::Falling {
        return Ok(Answer::Unbounded);
    }
    let solution = tableau.solution(alloc, program.columns.len())?;
    if is_solution(program, &solution) {
        Ok(Answer::Optimal(solution))
    } else {
        Err(SolveError::Range)
    }
}
