//! Bland's rule terminates: no two tableaux of the sequence have the same basis, so there are fewer pivots than bases,
//! and the sequence can be followed to its end without a limit on pivots.
//!
//! Builds on `simplex_core` (linear programs, their tableaux, `solve`). Main guarantee: `solve_whole` returns the end
//! of the sequence of tableaux that Bland's rule gives, or exactly why it isn't reached: there are too many bases to
//! count, a table is too wide, a number is out of range, or memory ran out. The number of pivots is never the reason.
#![tactic(auto)]

mod counting;
mod laws;
mod whole;

pub use counting::bases;
pub use laws::{
    bases_are_worked_out, bases_decide_tableaux, bases_suffice, ends_are_one, no_basis_comes_twice,
    pivots_are_few, pivots_are_worked_out,
};
pub use whole::{WholeError, solve_whole};
