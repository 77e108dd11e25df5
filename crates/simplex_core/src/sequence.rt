//! Bland's sequence of pivots, to its end or to a limit.

ghost use Rattle.std.specs.Prelude.{◌≡◌, ℕ, length, MatchResult};
ghost use Rattle.linear_forms.specs.LinearProgram.{HasNonnegativeCosts};
ghost use Rattle.simplex_core.specs.Tableau.{first_tableau};
ghost use Rattle.simplex_core.specs.Problem.{program_of};
ghost use Rattle.simplex_core.specs.Outcome.{IsEnd};
ghost use Rattle.simplex_core.specs.Halts.{IsHalt};

use crate::problem::{Problem, SolveError, Solved};
use crate::simplex_table::{SimplexTable, Unmade};
use std::alloc::{AllocError, Global};

/// Why the sequence isn't followed to an end.
#[derive(Debug, Drop, PartialEq, Eq)]
pub(crate) enum Halt {
    /// It exceeds a limit.
    LimitHit(SolveError),
    /// A number doesn't fit in the table; this says nothing about the sequence.
    Beyond,
}

impl From<AllocError> for Halt {
    ghost use Rattle.std.specs.Prelude.{◌≡◌};
    ghost use Rattle.simplex_core.specs.declared.problem.SolveError.TheVariants.{Memory};
    ghost use Rattle.simplex_core.specs.declared.sequence.Halt.TheVariants.{LimitHit};

    ghost from_gives = { λ _ e. e ≡ LimitHit Memory };

    fn from(_: AllocError) -> Halt {
        Halt::LimitHit(SolveError::Memory)
    }
}

/// Follows the sequence from the first tableau to its end.
pub(crate) fn run<T: SimplexTable + Drop>(
    alloc: Global,
    problem: &Problem,
    table: T,
    pivots: u32,
) -> Result<Solved, Halt>
    requires costs { HasNonnegativeCosts (program_of problem.now) }
    requires right { length problem.now.right.items ≡ problem.now.rows }
    requires first { T.shows (program_of problem.now) table (first_tableau (program_of problem.now)) }
    ensures { MatchResult result (IsEnd (program_of problem.now) pivots)
        (IsHalt T.gives_up (program_of problem.now) pivots) }
{
    let mut table = table;
    let mut made = 0;
    'pivoting: loop {
        if !table.is_in_range() {
            return Err(Halt::LimitHit(SolveError::Range { pivot: made }));
        }
        if table.is_infeasible() {
            let dual = table.dual(alloc, problem.right.as_slice())?;
            return Ok(Solved::Infeasible { dual, pivots: made });
        }
        let Some(column) = table.entering() else {
            let at = table.solution(alloc)?;
            let basis = table.basis(alloc)?;
            return Ok(Solved::Optimal {
                at,
                basis,
                pivots: made,
            });
        };
        if made == pivots {
            return Err(Halt::LimitHit(SolveError::Budget { pivots }));
        }
        match table.advance(alloc, column) {
            Ok(()) => made += 1,
            Err(Unmade::Beyond) => return Err(Halt::Beyond),
            Err(Unmade::Memory) => return Err(Halt::LimitHit(SolveError::Memory)),
        }
    }
}
