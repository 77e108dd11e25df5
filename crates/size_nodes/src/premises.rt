//! The sizes that side bounds read.

ghost use Rattle.std.specs.Prelude.{◌≡◌, ℕ, ◌<◌, ◌≤◌, ◌^◌, [], ◌∷◌, ◌++◌, not, length, map, All, IfOk, OnOk};
ghost use Rattle.model.specs.Programs.{Program};
ghost use Rattle.model.specs.Paths.{pre};
ghost use Rattle.cert_types.specs.cert_rules.Checks.{needed_from, needed_into};
ghost use Rattle.cert_types.specs.cert_program.Setting.{setting_of};
ghost use Rattle.cert_types.specs.Views.{member_of, result_variable_of};
ghost use Rattle.size_nodes.specs.Needs.{result_variables_outside, result_variables_from};
ghost use Rattle.size_nodes.specs.Members.{IsMemberIn, AreMembersIn};

use crate::members::LoopMembers;
use crate::transitions::Transitions;
use crate::updates::poly_at;
use bound_expr::Memory;
use cert_types::{Member, ResultVariable, has_result_variable, places_read};
use std::alloc::Global;

// Appends a place after a rule, numbered from 0, unless it is a member.
#[tactic(auto, using(crate::proofs::NeededResultVariables::inside_left_out, crate::proofs::NeededResultVariables::outside_pushed))]
fn push_unless(
    result_variables: &mut Vec<ResultVariable>,
    rule: u32,
    position: u32,
    members: &[Member],
) -> Result<(), Memory>
    requires few { position < 2 ^ 31 }
    ensures { OnOk result (map result_variable_of result_variables.new.items
        ≡ map result_variable_of result_variables.old.items ++ result_variables_outside (map member_of members.now) rule (position ∷ [])) }
{
    let place = position + 1;
    if has_result_variable(members, rule, place) {
        return Ok(());
    }
    result_variables.push(ResultVariable { rule, place })?;
    Ok(())
}

// Appends these places after a rule, except for the members.
fn push_each(
    result_variables: &mut Vec<ResultVariable>,
    rule: u32,
    places: &[u32],
    members: &[Member],
) -> Result<(), Memory>
    requires few { All (λ j. j < 2 ^ 31) places.now }
    ensures { OnOk result (map result_variable_of result_variables.new.items
        ≡ map result_variable_of result_variables.old.items ++ result_variables_outside (map member_of members.now) rule places.now) }
{
    for position in places {
        push_unless(result_variables, rule, *position, members)?;
    }
    Ok(())
}

// Pushes the result variables read outside the members of a loop: only those after the rule are examined.
fn push_outside(
    result_variables: &mut Vec<ResultVariable>,
    rule: u32,
    places: &[u32],
    cycle: &LoopMembers,
) -> Result<(), Memory>
    requires { All (λ j. j < 2 ^ 31) places.now }
    ensures { OnOk result (map result_variable_of result_variables.new.items
        ≡ map result_variable_of result_variables.old.items ++ result_variables_outside (map member_of cycle.now.members.now) rule places.now) }
{
    push_each(result_variables, rule, places, cycle.after(rule))
}

// Pushes those read after each of these rules: the places of the up side bound before those of the low one.
fn push_from(
    result_variables: &mut Vec<ResultVariable>,
    up: &[u32],
    low: &[u32],
    before: &[u32],
    cycle: &LoopMembers,
) -> Result<(), Memory>
    requires up { All (λ j. j < 2 ^ 31) up.now }
    requires low { All (λ j. j < 2 ^ 31) low.now }
    ensures { OnOk result (map result_variable_of result_variables.new.items
        ≡ map result_variable_of result_variables.old.items ++ result_variables_from (map member_of cycle.now.members.now) up.now low.now before.now) }
{
    for rule in before {
        push_outside(result_variables, *rule, up, cycle)?;
        push_outside(result_variables, *rule, low, cycle)?;
    }
    Ok(())
}

/// Appends the premises of a member, except for sizes of the members: after each rule that can come before, the places
/// that its up side bound reads, ascending, and then those of its low one.
///
/// # Errors
///
/// `Memory` if an allocation fails.
pub(crate) fn push_needed(
    alloc: Global,
    result_variables: &mut Vec<ResultVariable>,
    transitions: &Transitions,
    m: &Member,
    cycle: &LoopMembers,
) -> Result<(), Memory>
    requires { (p : Program) × IsMemberIn p transitions.now (member_of m.now) }
    ensures { OnOk result ((p : Program) → IsMemberIn p transitions.now (member_of m.now)
        → map result_variable_of result_variables.new.items ≡ map result_variable_of result_variables.old.items
        ++ needed_from (setting_of p) (map member_of cycle.now.members.now) (member_of m.now) (pre p m.now.result_variable.rule)) }
{
    let poly = poly_at(transitions.rows, m.result_variable);
    let left = transitions.rows[m.result_variable.rule as usize - 1].left;
    let up = places_read(alloc, &m.local.up, poly, left)?;
    let low = places_read(alloc, &m.local.low, poly, left)?;
    push_from(
        result_variables,
        &up,
        &low,
        transitions.graph.pre(m.result_variable.rule),
        cycle,
    )
}

/// The sizes that the members of a loop need from outside, after what can come before each.
///
/// # Errors
///
/// `Memory` if an allocation fails.
pub(crate) fn needed_result_variables(
    alloc: Global,
    transitions: &Transitions,
    cycle: &LoopMembers,
) -> Result<Vec<ResultVariable>, Memory>
    requires { (p : Program) × AreMembersIn p transitions.now (map member_of cycle.now.members.now) }
    ensures { IfOk result (λ result_variables. (p : Program) → AreMembersIn p transitions.now (map member_of cycle.now.members.now)
        → map result_variable_of result_variables.items
        ≡ needed_into (setting_of p) (map member_of cycle.now.members.now) (map member_of cycle.now.members.now)) }
{
    let mut result_variables = Vec::new(alloc);
    for m in cycle.members {
        push_needed(alloc, &mut result_variables, transitions, m, cycle)?;
    }
    Ok(result_variables)
}

/// The sizes that a member in no loop needs.
///
/// # Errors
///
/// `Memory` if an allocation fails.
pub(crate) fn needed_alone(
    alloc: Global,
    transitions: &Transitions,
    m: &Member,
) -> Result<Vec<ResultVariable>, Memory>
    requires { (p : Program) × IsMemberIn p transitions.now (member_of m.now) }
    ensures { IfOk result (λ result_variables. (p : Program) → IsMemberIn p transitions.now (member_of m.now)
        → map result_variable_of result_variables.items ≡ needed_into (setting_of p) [] (member_of m.now ∷ [])) }
{
    let nothing = LoopMembers::new(&[]);
    let mut result_variables = Vec::new(alloc);
    push_needed(alloc, &mut result_variables, transitions, m, &nothing)?;
    Ok(result_variables)
}
