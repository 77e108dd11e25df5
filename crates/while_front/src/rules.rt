//! Moves as rules, and points as symbols.

ghost use Rattle.std.specs.Prelude.{◌≡◌, ◌<◌, ◌≤◌, ◌^◌, ◌++◌, length, map, IfOk};
ghost use Rattle.while_model.specs.model.Limits.{place_limit};
ghost use Rattle.while_model.specs.Translation.{free_name as free_name_of, free_count as free_count_of};
ghost use Rattle.while_model.specs.Translation.{free_names, symbol_of as symbol_of_point, rule_of as rule_of_move};
ghost use Rattle.its_model.specs.Views.{name_of, symbol_of, rule_of};
ghost use Rattle.while_front.specs.Views.{action_of, move_of};

use crate::moves::{Action, Move};
use crate::points::number_in;
use crate::updates::updates_of;
use itoa::Buffer;
use its_model::{Name, Rule, Symbol};
use poly_terms::Memory;
use program_copies::{copied_name, copied_names};
use std::alloc::Global;

// The number of free variables of an action.
fn free_count(action: &Action) -> u32
    ensures { result ≡ free_count_of (action_of action.now) }
{
    match action {
        Action::Assign(_, _) => 0,
        Action::Choose(_) => 1,
        Action::Skip => 0,
    }
}

// The names of a rule's variables: the inputs, and the free variable if there is one.
fn names_of(
    alloc: Global,
    inputs: &[Name],
    free: &Name,
    action: &Action,
) -> Result<Vec<Name>, Memory>
    requires { name_of free.now ≡ free_name_of (map name_of inputs.now) }
    ensures { IfOk result (λ names. map name_of names.items
        ≡ map name_of inputs.now ++ free_names (map name_of inputs.now) (action_of action.now)) }
{
    let mut names = copied_names(alloc, inputs)?;
    match action {
        Action::Assign(_, _) => {}
        Action::Choose(_) => names.push(copied_name(alloc, free)?)?,
        Action::Skip => {}
    }
    Ok(names)
}

// A move as a rule; the symbols are numbered by the list of points.
pub(crate) fn rule_from(
    alloc: Global,
    inputs: &[Name],
    free: &Name,
    points: &[u32],
    taken: Move,
) -> Result<Rule, Memory>
    requires few_inputs { length inputs.now ≤ place_limit }
    requires few_points { length points.now < 2 ^ 32 }
    requires free { name_of free.now ≡ free_name_of (map name_of inputs.now) }
    ensures { IfOk result (λ r. rule_of r ≡ rule_of_move (map name_of inputs.now) points.now (move_of taken)) }
{
    let left = inputs.len() as u32;
    let source = number_in(points, taken.from);
    let target = number_in(points, taken.to);
    let names = names_of(alloc, inputs, free, &taken.action)?;
    let free = free_count(&taken.action);
    let updates = updates_of(alloc, left, taken.action)?;
    Ok(Rule {
        source,
        target,
        left,
        free,
        names,
        updates,
        guard: taken.guard,
        cost: None,
    })
}

// A point as a symbol with a place for each input: its name is `p` and the number of the point.
pub(crate) fn symbol_from(alloc: Global, inputs: &[Name], k: u32) -> Result<Symbol, Memory>
    requires { length inputs.now ≤ place_limit }
    ensures { IfOk result (λ s. symbol_of s ≡ symbol_of_point (map name_of inputs.now) k) }
{
    let mut bytes = b"p".to_vec(alloc)?;
    bytes.extend_from_slice(Buffer::new().format(k).as_bytes())?;
    Ok(Symbol {
        name: Name { bytes },
        arity: inputs.len() as u32,
    })
}
