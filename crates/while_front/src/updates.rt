//! The updates of an action.

ghost use Rattle.std.specs.Prelude.{◌≡◌, set, map, IfOk};
ghost use Rattle.while_model.specs.Translation.{variables as variables_of, updates_of as updates_of_action};
ghost use Rattle.poly_terms.specs.Views.{term_of};
ghost use Rattle.while_front.specs.Views.{action_of};

use crate::moves::Action;
use poly_terms::{Expr, Memory};
use std::alloc::Global;

// The first n variables, as expressions.
#[tactic(auto, using(crate::proofs::UpdateLists::variables_push))]
fn variables(alloc: Global, n: u32) -> Result<Vec<Expr>, Memory>
    ensures { IfOk result (λ updates. map term_of updates.items ≡ variables_of n) }
{
    let mut updates = Vec::new(alloc);
    for x in 0..n {
        updates.push(Expr::Var(x))?;
    }
    Ok(updates)
}

// Overwrites the update of variable x, if there is one, with an expression.
#[tactic(auto, using(crate::proofs::UpdateLists::terms_set))]
fn put(updates: &mut Vec<Expr>, x: u32, e: Expr)
    ensures { map term_of updates.new.items ≡ set (map term_of updates.old.items) x (term_of e) }
{
    let place = x as usize;
    if place < updates.len() {
        updates[place] = e;
    }
}

// The updates of an action over n variables; the free variable has the number n.
pub(crate) fn updates_of(alloc: Global, n: u32, action: Action) -> Result<Vec<Expr>, Memory>
    ensures { IfOk result (λ updates. map term_of updates.items ≡ updates_of_action n (action_of action)) }
{
    let mut updates = variables(alloc, n)?;
    match action {
        Action::Assign(x, e) => put(&mut updates, x, e),
        Action::Choose(x) => put(&mut updates, x, Expr::Var(n)),
        Action::Skip => {}
    }
    Ok(updates)
}
