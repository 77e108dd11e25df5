//! Blocks of a while program that are open, and assignments that end.

ghost use Rattle.std.specs.Prelude.{◌≡◌, if◌then◌else◌};
ghost use Rattle.poly_terms.specs.Views.{term_of};
ghost use Rattle.while_tree.specs.while_model.Statements.{Assign, Choose};
ghost use Rattle.while_tree.specs.Views.{Plain, stmt_of};

use its_model::Atom;
use poly_terms::Expr;
use while_tree::Stmt;

/// The kind of the next block; outside of tests it is the second one of a branch.
#[derive(Clone, Copy, Debug, PartialEq, Eq)]
pub enum Opener {
    /// The block of a loop.
    Loop,
    /// The first block of a branch.
    First,
    /// The second block of a branch.
    Second,
}

/// An open block, with its test and the statements before the statement that it belongs to.
#[derive(Drop)]
pub enum Block {
    InLoop(Vec<Atom>, Vec<Stmt>),
    InFirst(Vec<Atom>, Vec<Stmt>),
    /// The second block of a branch, with the first one between the test and the statements before.
    InSecond(Vec<Atom>, Vec<Stmt>, Vec<Stmt>),
}

/// An assignment of a value, or of any integer.
pub fn assignment(chosen: bool, variable: u32, value: Expr) -> Stmt
    ensures { stmt_of result
        ≡ Plain (if chosen then Choose variable else Assign variable (term_of value)) }
{
    if chosen {
        Stmt::Any(variable)
    } else {
        Stmt::Assign(variable, value)
    }
}
