//! Integer expressions over numbered variables.

/// An integer expression over variables that are numbered from 0, as in a program's updates and guards.
///
/// Brackets leave no node. Sums, differences and products are grouped as they were written. The value over unbounded
/// integers is `value (term_of e)`; a power with exponent 0 is 1.
#[derive(Debug, PartialEq, Eq, Drop)]
pub enum Expr {
    /// A literal.
    Num(i128),
    /// The variable with this number.
    Var(u32),
    /// `-e`.
    Neg(Box<Expr>),
    /// `d + e`.
    Add(Box<Expr>, Box<Expr>),
    /// `d - e`.
    Sub(Box<Expr>, Box<Expr>),
    /// `d * e`.
    Mul(Box<Expr>, Box<Expr>),
    /// `e ^ n`.
    Pow(Box<Expr>, u32),
}
