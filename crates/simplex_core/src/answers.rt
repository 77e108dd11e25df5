//! The answer in integers, or the limit that was exceeded.

ghost use Rattle.std.specs.Prelude.{ℕ, IfOk};
ghost use Rattle.simplex_core.specs.Problem.{program_of, IsProper};
ghost use Rattle.simplex_core.specs.HitsLimit.{IsWholeAnswer};

use crate::problem::{Problem, SolveError, Solved};
use crate::scaling::{Numerators, scale_by_least};
use crate::solving::solve;
use linear_forms::{CERTIFICATE_LIMIT, LimitCause, POINT_LIMIT};
use std::alloc::{AllocError, Global};

/// The denominator of a dual never exceeds this if the dual's numbers are within their own limit.
const DUAL_DENOMINATOR_LIMIT: u128 = 1 << 76;

/// The end of the sequence of tableaux in integers, or the limit that was exceeded.
#[derive(Debug, Drop, PartialEq, Eq)]
pub enum Answer {
    /// A solution of least cost, one number for each column.
    Solution(Numerators),
    /// A dual, which shows that there is no solution, one number for each row.
    Dual(Numerators),
    /// The linear program hits a limit.
    OutOfLimits(LimitCause),
}

/// Solves a linear program, and scales its answer to the least common denominator. The precondition is that of `solve`.
/// The cause `Scale` comes exactly if the numbers are too large over each common denominator. The limit for the numbers
/// of a solution and its denominator is that of certificates, 2^56; for the numbers of a dual it is that of points,
/// 2^45.
///
/// # Errors
///
/// `AllocError` if an allocation fails.
pub fn solve_scaled(alloc: Global, problem: &Problem, pivots: u32) -> Result<Answer, AllocError>
    requires { IsProper problem.now }
    ensures { IfOk result (λ answer. IsWholeAnswer (program_of problem.now) pivots answer) }
{
    match solve(alloc, problem, pivots) {
        Ok(Solved::Optimal { at, .. }) => {
            match scale_by_least(
                alloc,
                at.as_slice(),
                u128::from(CERTIFICATE_LIMIT),
                CERTIFICATE_LIMIT,
            )? {
                Some(solution) => Ok(Answer::Solution(solution)),
                None => Ok(Answer::OutOfLimits(LimitCause::Scale)),
            }
        }
        Ok(Solved::Infeasible { dual, .. }) => {
            match scale_by_least(alloc, dual.as_slice(), DUAL_DENOMINATOR_LIMIT, POINT_LIMIT)? {
                Some(dual) => Ok(Answer::Dual(dual)),
                None => Ok(Answer::OutOfLimits(LimitCause::Scale)),
            }
        }
        Err(SolveError::Range { pivot }) => Ok(Answer::OutOfLimits(LimitCause::Range { pivot })),
        Err(SolveError::Budget { pivots }) => Ok(Answer::OutOfLimits(LimitCause::Budget {
            pivots,
        })),
        Err(SolveError::Wide { entries }) => Ok(Answer::OutOfLimits(LimitCause::Wide { entries })),
        Err(SolveError::Memory) => Err(AllocError),
    }
}
