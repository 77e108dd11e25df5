//! The sequence of tableaux, followed to its end.

ghost use Rattle.simplex_core.specs.Problem.{program_of, IsProper};
ghost use Rattle.bland_end.specs.Whole.{IsWholeEnd};

use crate::counting::bases;
use simplex_core::{Problem, SolveError, Solved, solve};
use std::alloc::Global;
use thiserror::Error;

/// Why the end of the sequence of tableaux isn't reached.
#[derive(Debug, Drop, Error, PartialEq, Eq)]
pub enum WholeError {
    /// After this many pivots a number has a numerator or a denominator of 2^31 or more.
    #[error("a number is out of range after {pivot} pivots")]
    Range { pivot: u32 },
    /// The equations of the table would have this many numbers, which is over the limit.
    #[error("a table of {entries} numbers is too wide")]
    Wide { entries: u64 },
    /// At least 2^32 sets of unknowns could be a basis, so the number of pivots isn't known to fit in 32 bits.
    #[error("there are too many bases")]
    TooMany,
    /// Memory ran out.
    #[error("out of memory")]
    Memory,
}

/// Precondition: that of `solve`.
///
/// The end of Bland's sequence of tableaux, as `solve` returns it, without a limit on pivots: no basis occurs twice
/// (`no_basis_comes_twice`), so as many pivots as there are bases suffice (`bases_suffice`).
///
/// # Errors
///
/// `TooMany`, before all others, exactly if `bases` is None. Then `Wide` if the equations of the table would have more
/// than 40,000,000,000 numbers; `Range` at the first tableau with a number out of range; `Memory` if an allocation
/// fails.
pub fn solve_whole(alloc: Global, problem: &Problem) -> Result<Solved, WholeError>
    requires { IsProper problem.now }
    ensures { IsWholeEnd (program_of problem.now) result }
{
    let Some(pivots) = bases(problem) else {
        return Err(WholeError::TooMany);
    };
    match solve(alloc, problem, pivots) {
        Ok(solved) => Ok(solved),
        Err(SolveError::Range { pivot }) => Err(WholeError::Range { pivot }),
        Err(SolveError::Wide { entries }) => Err(WholeError::Wide { entries }),
        Err(SolveError::Memory) => Err(WholeError::Memory),
        Err(SolveError::Budget { .. }) => unreachable!(),
    }
}
