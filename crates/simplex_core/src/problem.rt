//! Linear programs as problems, and the answers.

use frac128::Frac;
use std::alloc::AllocError;
use thiserror::Error;

/// A linear program in equational form: unknowns at least 0, one for each column; one equation for
/// each row; and two lists of costs at least 0, compared first by `first`, then by `second`.
#[derive(Debug, Drop, PartialEq, Eq)]
pub struct Problem {
    /// The number of equations.
    pub rows: u32,
    /// The number of unknowns.
    pub cols: u32,
    /// The numbers of the equations, at most one for each row and column; where none is given it is 0.
    pub entries: Vec<Entry>,
    /// The right sides, one for each row.
    pub right: Vec<i128>,
    /// The first costs, one for each column.
    pub first: Vec<i128>,
    /// The second costs, one for each column.
    pub second: Vec<i128>,
}

/// A number of a linear program.
#[derive(Clone, Copy, Debug, PartialEq, Eq)]
pub struct Entry {
    /// The row, from 0.
    pub row: u32,
    /// The column, from 0.
    pub col: u32,
    /// The number.
    pub value: i128,
}

/// The end of the sequence of tableaux.
#[derive(Debug, Drop, PartialEq, Eq)]
pub enum Solved {
    /// A solution of least cost, the columns of the last basis in the order of the rows, and how many
    /// pivots were made.
    Optimal {
        at: Vec<Frac>,
        basis: Vec<u32>,
        pivots: u32,
    },
    /// There is no solution: the dual gives every column at most 0 and the right sides more than 0.
    Infeasible {
        dual: Vec<Frac>,
        pivots: u32,
    },
}

/// Why the sequence of tableaux isn't followed to its end.
#[derive(Debug, Drop, Error, PartialEq, Eq)]
pub enum SolveError {
    /// After this many pivots a number has a numerator or a denominator of 2^31 or more.
    #[error("a number is out of range after {pivot} pivots")]
    Range { pivot: u32 },
    /// Another pivot is needed, but the allowed number of pivots has been made.
    #[error("more than {pivots} pivots are needed")]
    Budget { pivots: u32 },
    /// The equations of the table would have this many numbers, which is over the limit.
    #[error("a table of {entries} numbers is too wide")]
    Wide { entries: u64 },
    /// Memory ran out.
    #[error("out of memory")]
    Memory,
}

impl From<AllocError> for SolveError {
    ghost use Rattle.std.specs.Prelude.{◌≡◌};
    ghost use Rattle.simplex_core.specs.declared.problem.SolveError.TheVariants.{Memory};

    ghost from_gives = { λ _ e. e ≡ Memory };

    fn from(_: AllocError) -> SolveError {
        SolveError::Memory
    }
}
