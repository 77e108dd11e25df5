//! The derivations before the first round: rules that never run.

ghost use Rattle.std.specs.Prelude.{◌≡◌, ◌+◌, ◌<◌, ◌^◌, ◌∷◌, ◌++◌, [], length, map, IfOk, OnOk};
ghost use Rattle.std.specs.List.{range_with_len};
ghost use Rattle.cert_types.specs.Views.{result_variable_of};
ghost use Rattle.bound_fixpoint.specs.Keys.{key};
ghost use Rattle.bound_fixpoint.specs.Beginning.{empty_derivation as empty_derivation_of, unreached_derivation as unreached_derivation_of};
ghost use Rattle.bound_derivations.specs.Views.{derivation_of, derivations_of};
ghost use Rattle.time_bounds.specs.Questions.{BelongsTogether, program_in};
ghost use Rattle.time_bounds.specs.Beginning.{empty_here, empty_derivations as empty_derivations_of, empty_key, empty_keys};
ghost use Rattle.time_bounds.specs.Beginning.{unreached_here, unreached_derivations, sized_derivation as sized_derivation_of};
ghost use Rattle.time_bounds.specs.Beginning.{never_here, never_derivations};

use crate::context::Context;
use crate::premises::time_keys;
use crate::rule_statuses::RuleStatus;
use bound_derivations::{Derivation, Node};
use bound_expr::Bound;
use cert_types::{EmptyNode, GuardFeasibility, ResultVariable};
use model::Memory;
use std::alloc::Global;

/// The derivations before the first round, by the status of each rule: the time 0 of each infeasible rule; the time 0
/// of each other rule that is unreached, with the times of all infeasible ones as premises; and the size 0 at each
/// place after both.
pub(crate) fn first_derivations(
    cx: &Context,
    rule_statuses: &[RuleStatus],
) -> Result<Vec<Derivation>, Memory>
    requires ready { BelongsTogether cx.now }
    requires rule_statuses { length rule_statuses.now ≡ length cx.now.program.now.rules.items }
    ensures { IfOk result (λ derivations. derivations_of derivations.items ≡ empty_derivations_of 1 cx.now.empties.items
        ++ (unreached_derivations (empty_keys 1 rule_statuses.now) 1 rule_statuses.now
        ++ never_derivations (program_in cx.now) 1 rule_statuses.now (program_in cx.now).rules)) }
{
    let mut derivations = Vec::new(cx.alloc);
    push_empty(cx.alloc, &mut derivations, &cx.empties)?;
    let dead = dead_keys(cx.alloc, rule_statuses)?;
    push_unreached(cx.alloc, &mut derivations, rule_statuses, &dead)?;
    push_never(cx, &mut derivations, rule_statuses)?;
    Ok(derivations)
}

// A derivation for each infeasible rule.
fn push_empty(
    alloc: Global,
    derivations: &mut Vec<Derivation>,
    empties: &[GuardFeasibility],
) -> Result<(), Memory>
    requires { length empties.now < 2 ^ 31 }
    ensures { OnOk result (derivations_of derivations.new.items ≡ derivations_of derivations.old.items ++ empty_derivations_of 1 empties.now) }
{
    for (position, answer) in empties.iter().enumerate() {
        push_if_empty(alloc, derivations, position as u32 + 1, answer)?;
    }
    Ok(())
}

// The derivation of a rule, if it is infeasible.
fn push_if_empty(
    alloc: Global,
    derivations: &mut Vec<Derivation>,
    rule: u32,
    answer: &GuardFeasibility,
) -> Result<(), Memory>
    ensures { OnOk result (derivations_of derivations.new.items ≡ derivations_of derivations.old.items ++ empty_here rule answer.now) }
{
    match answer {
        GuardFeasibility::Empty(node) => {
            derivations.push(empty_derivation(alloc, rule, node)?)?;
            Ok(())
        }
        GuardFeasibility::Point(_) => Ok(()),
        GuardFeasibility::OutOfLimits(_) => Ok(()),
    }
}

// The derivation of an infeasible rule.
fn empty_derivation(alloc: Global, rule: u32, node: &EmptyNode) -> Result<Derivation, Memory>
    ensures { IfOk result (λ f. derivation_of f ≡ empty_derivation_of rule node.now.multipliers.items) }
{
    let multipliers = Vec::from_slice(alloc, &node.multipliers)?;
    let keys = time_keys(alloc, rule)?;
    let premises = Vec::new(alloc);
    Ok(Derivation {
        keys,
        node: Node::Empty(EmptyNode { rule, multipliers }),
        premises,
        bound: Bound::Const(0),
    })
}

// The keys of the times of infeasible rules.
fn dead_keys(alloc: Global, rule_statuses: &[RuleStatus]) -> Result<Vec<ResultVariable>, Memory>
    requires { length rule_statuses.now < 2 ^ 31 }
    ensures { IfOk result (λ keys. map result_variable_of keys.items ≡ empty_keys 1 rule_statuses.now) }
{
    let mut keys = Vec::new(alloc);
    for (position, rule_status) in rule_statuses.iter().enumerate() {
        push_key(&mut keys, position as u32 + 1, *rule_status)?;
    }
    Ok(keys)
}

// The key of the time of a rule, if it is infeasible.
fn push_key(
    keys: &mut Vec<ResultVariable>,
    rule: u32,
    rule_status: RuleStatus,
) -> Result<(), Memory>
    ensures { OnOk result (map result_variable_of keys.new.items ≡ map result_variable_of keys.old.items ++ empty_key rule rule_status) }
{
    match rule_status {
        RuleStatus::Empty => {
            keys.push(ResultVariable { rule, place: 0 })?;
            Ok(())
        }
        RuleStatus::Unreached => Ok(()),
        RuleStatus::Live => Ok(()),
    }
}

// A derivation for each feasible rule that is unreached, with the times of all infeasible ones as premises.
fn push_unreached(
    alloc: Global,
    derivations: &mut Vec<Derivation>,
    rule_statuses: &[RuleStatus],
    dead: &[ResultVariable],
) -> Result<(), Memory>
    requires { length rule_statuses.now < 2 ^ 31 }
    ensures { OnOk result (derivations_of derivations.new.items
        ≡ derivations_of derivations.old.items ++ unreached_derivations (map result_variable_of dead.now) 1 rule_statuses.now) }
{
    for (position, rule_status) in rule_statuses.iter().enumerate() {
        push_if_unreached(alloc, derivations, position as u32 + 1, *rule_status, dead)?;
    }
    Ok(())
}

// The derivation of a rule, if it is unreached.
fn push_if_unreached(
    alloc: Global,
    derivations: &mut Vec<Derivation>,
    rule: u32,
    rule_status: RuleStatus,
    dead: &[ResultVariable],
) -> Result<(), Memory>
    ensures { OnOk result (derivations_of derivations.new.items
        ≡ derivations_of derivations.old.items ++ unreached_here (map result_variable_of dead.now) rule rule_status) }
{
    match rule_status {
        RuleStatus::Empty => Ok(()),
        RuleStatus::Unreached => {
            derivations.push(unreached_derivation(alloc, rule, dead)?)?;
            Ok(())
        }
        RuleStatus::Live => Ok(()),
    }
}

// The derivation of an unreached rule.
fn unreached_derivation(
    alloc: Global,
    rule: u32,
    dead: &[ResultVariable],
) -> Result<Derivation, Memory>
    ensures { IfOk result (λ f. derivation_of f ≡ unreached_derivation_of (map result_variable_of dead.now) rule) }
{
    Ok(Derivation {
        keys: time_keys(alloc, rule)?,
        node: Node::Unreached { rule },
        premises: Vec::from_slice(alloc, dead)?,
        bound: Bound::Const(0),
    })
}

// A derivation for the sizes after each rule that never runs and leads to a symbol with a place.
fn push_never(
    cx: &Context,
    derivations: &mut Vec<Derivation>,
    rule_statuses: &[RuleStatus],
) -> Result<(), Memory>
    requires ready { BelongsTogether cx.now }
    requires rule_statuses { length rule_statuses.now ≡ length cx.now.program.now.rules.items }
    ensures { OnOk result (derivations_of derivations.new.items ≡ derivations_of derivations.old.items
        ++ never_derivations (program_in cx.now) 1 rule_statuses.now (program_in cx.now).rules) }
{
    for (position, rule) in cx.program.rules.iter().enumerate() {
        let arity = cx.program.symbols[rule.target as usize].arity;
        let rule_status = rule_statuses[position];
        push_if_never(
            cx.alloc,
            derivations,
            position as u32 + 1,
            rule_status,
            arity,
        )?;
    }
    Ok(())
}

// The derivation of the sizes after a rule, if it never runs and leads to a symbol with this many places, at least one.
fn push_if_never(
    alloc: Global,
    derivations: &mut Vec<Derivation>,
    rule: u32,
    rule_status: RuleStatus,
    arity: u32,
) -> Result<(), Memory>
    requires { arity < 2 ^ 31 }
    ensures { OnOk result (derivations_of derivations.new.items ≡ derivations_of derivations.old.items ++ never_here rule rule_status arity) }
{
    if rule_status == RuleStatus::Live || arity == 0 {
        return Ok(());
    }
    derivations.push(sized_derivation(alloc, rule, arity)?)?;
    Ok(())
}

// The derivation of the sizes at this many places after a rule that never runs.
fn sized_derivation(alloc: Global, rule: u32, arity: u32) -> Result<Derivation, Memory>
    requires { arity < 2 ^ 31 }
    ensures { IfOk result (λ f. derivation_of f ≡ sized_derivation_of rule arity) }
{
    Ok(Derivation {
        keys: place_keys(alloc, rule, arity)?,
        node: Node::Never { rule },
        premises: time_keys(alloc, rule)?,
        bound: Bound::Const(0),
    })
}

// The keys of this many places after a rule.
fn place_keys(alloc: Global, rule: u32, arity: u32) -> Result<Vec<ResultVariable>, Memory>
    requires { arity < 2 ^ 31 }
    ensures { IfOk result (λ keys. map result_variable_of keys.items ≡ map (λ i. key rule i) (range_with_len 1 arity)) }
{
    let mut keys = Vec::new(alloc);
    for position in 0..arity {
        keys.push(ResultVariable {
            rule,
            place: position + 1,
        })?;
    }
    Ok(keys)
}
