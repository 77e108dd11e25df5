//! Answers a linear program from a file.

ghost use Rattle.std.specs.Prelude.{◌≤◌, IfOk};
ghost use Rattle.bland_end.specs.simplex_core.Problem.{program_of, IsProper, table_size, widest};
ghost use Rattle.lp_text.specs.Problems.{program_in};
ghost use Rattle.lp_text.specs.Spelled.{IsWithin};
ghost use Rattle.lp_text.specs.Views.{lp_of};
ghost use Rattle.lp_answer.specs.Answers.{IsAnswerTo};

use crate::answer::LpAnswer;
use crate::text::{end_text, range_text};
use bland_end::{WholeError, solve_whole};
use lp_text::{Problem, WrittenLp};
use std::alloc::{AllocError, Global};

/// The answer to a linear program within the limits on files.
///
/// # Errors
///
/// `AllocError` if an allocation fails.
pub fn answer_lp(alloc: Global, written: &WrittenLp) -> Result<LpAnswer, AllocError>
    requires { IsWithin (lp_of written.now) }
    ensures { IfOk result (IsAnswerTo (program_in (lp_of written.now))) }
{
    let problem = written.to_problem(alloc)?;
    answer_problem(alloc, &problem)
}

// The answer to a problem whose table isn't too wide.
fn answer_problem(alloc: Global, problem: &Problem) -> Result<LpAnswer, AllocError>
    requires proper { IsProper problem.now }
    requires narrow { table_size (program_of problem.now) ≤ widest }
    ensures { IfOk result (IsAnswerTo (program_of problem.now)) }
{
    match solve_whole(alloc, problem) {
        Ok(solved) => Ok(LpAnswer::Ended(end_text(alloc, &solved)?)),
        Err(WholeError::Range { pivot }) => Ok(LpAnswer::Stopped(range_text(alloc, pivot)?)),
        Err(WholeError::TooMany) => {
            let text = Vec::from_slice(alloc, b"too many bases\n")?;
            Ok(LpAnswer::Stopped(text))
        }
        Err(WholeError::Memory) => Err(AllocError),
        Err(WholeError::Wide { .. }) => unreachable!(),
    }
}
