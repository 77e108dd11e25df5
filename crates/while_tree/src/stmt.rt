//! Statements and programs of the while language.

use its_model::{Atom, Name};
use poly_terms::Expr;

/// A statement. Variables are numbered from 0, in the order of the inputs. A test is a list of atoms; it holds if each
/// of them does.
#[derive(Debug, PartialEq, Eq, Drop)]
pub enum Stmt {
    /// The variable with this number takes the value of the expression.
    Assign(u32, Expr),
    /// The variable with this number takes any integer.
    Any(u32),
    /// Nothing happens.
    Skip,
    /// While the test holds, the block is executed.
    While(Vec<Atom>, Vec<Stmt>),
    /// If the test holds, the first block is executed, and else the second one.
    If(Vec<Atom>, Vec<Stmt>, Vec<Stmt>),
}

/// A program of the while language.
#[derive(Debug, PartialEq, Eq, Drop)]
pub struct Whole {
    /// The names of the inputs, which are all the variables.
    pub names: Vec<Name>,
    /// The statements, in order.
    pub body: Vec<Stmt>,
    /// The position of the first byte of each statement, including those in blocks, in the order of the text.
    pub at: Vec<u64>,
}
