//! The premises of ranking nodes: the keys of bounds.

ghost use Rattle.std.specs.Prelude.{◌≡◌, ◌-◌, ◌<◌, ◌^◌, ◌∷◌, ◌++◌, [], length, map, IfOk, OnOk};
ghost use Rattle.std.specs.List.{All};
ghost use Rattle.its_model.specs.Views.{program_of};
ghost use Rattle.cert_types.specs.Views.{rank_of, result_variable_of};
ghost use Rattle.cert_types.specs.Sizes.{IsShort};
ghost use Rattle.bound_fixpoint.specs.Keys.{key, time_key};
ghost use Rattle.bound_fixpoint.specs.Needs.{read_places, entry_premises, rank_premises as rank_premises_of};
ghost use Rattle.time_bounds.specs.Needs.{read_here};

use cert_types::{RankNode, ResultVariable, entries, rank_form, target_of};
use its_model::Program;
use model::Memory;
use std::alloc::Global;

/// The list of the key of a rule's time.
pub(crate) fn time_keys(alloc: Global, rule: u32) -> Result<Vec<ResultVariable>, Memory>
    ensures { IfOk result (λ keys. map result_variable_of keys.items ≡ time_key rule ∷ []) }
{
    let mut keys = Vec::new(alloc);
    keys.push(ResultVariable { rule, place: 0 })?;
    Ok(keys)
}

/// The premises of a ranking node, in order: for each entry its time, and then its sizes at the places that the
/// function reads after it.
pub(crate) fn rank_premises(
    alloc: Global,
    p: &Program,
    node: &RankNode,
) -> Result<Vec<ResultVariable>, Memory>
    requires rules { length p.now.rules.items < 2 ^ 32 - 1 }
    requires few { All IsShort node.now.forms.items }
    ensures { IfOk result (λ premises. map result_variable_of premises.items ≡ rank_premises_of (program_of p.now) (rank_of node.now)) }
{
    let mut premises = Vec::new(alloc);
    let entering = entries(alloc, p, &node.set)?;
    for entry in &entering {
        push_needed(&mut premises, p, node, *entry)?;
    }
    Ok(premises)
}

// Appends the premises of a node about an entry: its time, and its sizes where the function reads them.
fn push_needed(
    premises: &mut Vec<ResultVariable>,
    p: &Program,
    node: &RankNode,
    entry: u32,
) -> Result<(), Memory>
    requires few { All IsShort node.now.forms.items }
    ensures { OnOk result (map result_variable_of premises.new.items ≡ map result_variable_of premises.old.items
        ++ entry_premises (program_of p.now) (rank_of node.now) entry) }
{
    premises.push(ResultVariable {
        rule: entry,
        place: 0,
    })?;
    match rank_form(&node.forms, target_of(p, entry)) {
        Some(form) => push_sizes(premises, &form.coefs, entry),
        None => Ok(()),
    }
}

// Appends the sizes after an entry at the places with a coefficient.
fn push_sizes(premises: &mut Vec<ResultVariable>, coefs: &[i64], entry: u32) -> Result<(), Memory>
    requires { length coefs.now < 2 ^ 31 }
    ensures { OnOk result (map result_variable_of premises.new.items
        ≡ map result_variable_of premises.old.items ++ map (λ i. key entry i) (read_places 1 coefs.now)) }
{
    for (position, coef) in coefs.iter().enumerate() {
        push_size(premises, entry, position as u32 + 1, coef)?;
    }
    Ok(())
}

// Appends the size after an entry at a place with this coefficient, where it isn't zero.
fn push_size(
    premises: &mut Vec<ResultVariable>,
    entry: u32,
    place: u32,
    coef: &i64,
) -> Result<(), Memory>
    ensures { OnOk result (map result_variable_of premises.new.items
        ≡ map result_variable_of premises.old.items ++ map (λ i. key entry i) (read_here coef.now place)) }
{
    if *coef == 0 {
        return Ok(());
    }
    premises.push(ResultVariable { rule: entry, place })?;
    Ok(())
}
