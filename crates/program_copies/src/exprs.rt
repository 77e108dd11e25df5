//! Copies of expressions.

ghost use Rattle.std.specs.Prelude.{◌≡◌, IfOk, map, option_map};
ghost use Rattle.poly_terms.specs.Views.{term_of};

use poly_terms::{Expr, Memory};
use std::alloc::Global;

/// A copy of an expression.
///
/// # Errors
///
/// `Memory` where an allocation fails.
#[cycle(copied)]
pub fn copied_expr(alloc: Global, e: &Expr) -> Result<Expr, Memory>
    ensures { IfOk result (λ copy. term_of copy ≡ term_of e.now) }
{
    match e {
        Expr::Num(z) => Ok(Expr::Num(*z)),
        Expr::Var(i) => Ok(Expr::Var(*i)),
        Expr::Neg(e) => Ok(Expr::Neg(boxed(alloc, e)?)),
        Expr::Add(d, e) => Ok(Expr::Add(boxed(alloc, d)?, boxed(alloc, e)?)),
        Expr::Sub(d, e) => Ok(Expr::Sub(boxed(alloc, d)?, boxed(alloc, e)?)),
        Expr::Mul(d, e) => Ok(Expr::Mul(boxed(alloc, d)?, boxed(alloc, e)?)),
        Expr::Pow(e, exponent) => Ok(Expr::Pow(boxed(alloc, e)?, *exponent)),
    }
}

// A copy of an expression in a box.
#[cycle(copied)]
fn boxed(alloc: Global, e: &Expr) -> Result<Box<Expr>, Memory>
    ensures { IfOk result (λ b. term_of b.value ≡ term_of e.now) }
{
    Ok(Box::new(alloc, copied_expr(alloc, e)?)?)
}

/// Copies of expressions, in order.
///
/// # Errors
///
/// `Memory` where an allocation fails.
pub fn copied_exprs(alloc: Global, exprs: &[Expr]) -> Result<Vec<Expr>, Memory>
    ensures { IfOk result (λ copies. map term_of copies.items ≡ map term_of exprs.now) }
{
    let mut copies = Vec::new(alloc);
    for expr in exprs {
        copies.push(copied_expr(alloc, expr)?)?;
    }
    Ok(copies)
}

/// A copy of a rule's cost, if it has one.
///
/// # Errors
///
/// `Memory` where an allocation fails.
pub fn copied_cost(alloc: Global, cost: &Option<Expr>) -> Result<Option<Expr>, Memory>
    ensures { IfOk result (λ copy. option_map term_of copy ≡ option_map term_of cost.now) }
{
    match cost {
        Some(expr) => Ok(Some(copied_expr(alloc, expr)?)),
        None => Ok(None),
    }
}
