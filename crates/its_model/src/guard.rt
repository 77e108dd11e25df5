//! Guards: the atoms that have to hold for a step.

use poly_terms::Expr;

/// A relation between two integers.
#[derive(Clone, Copy, Debug, PartialEq, Eq)]
pub enum Rel {
    /// `>=`
    Ge,
    /// `>`
    Gt,
    /// `<=`
    Le,
    /// `<`
    Lt,
    /// `=`
    Eq,
}

/// An atom of a guard.
#[derive(Debug, PartialEq, Eq, Drop)]
pub enum Atom {
    /// The atom that always holds, written `TRUE`.
    Always,
    /// A comparison of two expressions over the rule's variables.
    Compare { left: Expr, rel: Rel, right: Expr },
}
