//! Expressions with other expressions in place of their variables.

ghost use Rattle.std.specs.Prelude.{◌≡◌, map, IfOk};
ghost use Rattle.refinement.specs.model.Terms.{Variable};
ghost use Rattle.refinement.specs.Obligations.{moved as moved_by};
ghost use Rattle.poly_terms.specs.Views.{term_of};

use poly_terms::{Expr, Memory};
use program_copies::copied_expr;
use std::alloc::Global;

/// The expression with the updates in place of its variables, so its value is that of the expression at the new values.
/// A variable without an update becomes 0.
///
/// # Errors
///
/// `Memory` where an allocation fails.
#[cycle(moved)]
pub fn moved(alloc: Global, e: &Expr, updates: &[Expr]) -> Result<Expr, Memory>
    ensures { IfOk result (λ t. term_of t ≡ moved_by (term_of e.now) (map term_of updates.now)) }
{
    match e {
        Expr::Num(z) => Ok(Expr::Num(*z)),
        Expr::Var(i) => update_at(alloc, updates, *i),
        Expr::Neg(e) => Ok(Expr::Neg(boxed(alloc, e, updates)?)),
        Expr::Add(d, e) => Ok(Expr::Add(boxed(alloc, d, updates)?, boxed(alloc, e, updates)?)),
        Expr::Sub(d, e) => Ok(Expr::Sub(boxed(alloc, d, updates)?, boxed(alloc, e, updates)?)),
        Expr::Mul(d, e) => Ok(Expr::Mul(boxed(alloc, d, updates)?, boxed(alloc, e, updates)?)),
        Expr::Pow(e, exponent) => Ok(Expr::Pow(boxed(alloc, e, updates)?, *exponent)),
    }
}

// The expression with the updates in place of its variables, in a box.
#[cycle(moved)]
fn boxed(alloc: Global, e: &Expr, updates: &[Expr]) -> Result<Box<Expr>, Memory>
    ensures { IfOk result (λ b. term_of b.value ≡ moved_by (term_of e.now) (map term_of updates.now)) }
{
    Ok(Box::new(alloc, moved(alloc, e, updates)?)?)
}

// The update of a place, or 0 if there is none.
fn update_at(alloc: Global, updates: &[Expr], place: u32) -> Result<Expr, Memory>
    ensures { IfOk result (λ t. term_of t ≡ moved_by (Variable place) (map term_of updates.now)) }
{
    match updates.get(place as usize) {
        Some(u) => copied_expr(alloc, u),
        None => Ok(Expr::Num(0)),
    }
}
