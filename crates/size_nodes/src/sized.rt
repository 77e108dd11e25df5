//! Checks sizes of a place that doesn't loop, and of the members of a loop.

ghost use Rattle.std.specs.Prelude.{◌≡◌, [], ◌∷◌, ◌++◌, map, None, IfOk};
ghost use Rattle.std.specs.List.Sorted.{IsNonDecreasingBy};
ghost use Rattle.model.specs.Programs.{Program};
ghost use Rattle.bound_expr.specs.Views.{bound_of};
ghost use Rattle.cert_types.specs.cert_rules.Checks.{needed_into};
ghost use Rattle.cert_types.specs.cert_rules.ComposedSizes.{base_of};
ghost use Rattle.cert_types.specs.cert_program.Setting.{setting_of};
ghost use Rattle.cert_types.specs.Views.{member_of, result_variable_of};
ghost use Rattle.size_nodes.specs.Flows.{flow_of};
ghost use Rattle.size_nodes.specs.Growths.{growth_of, growth_by_flows};
ghost use Rattle.size_nodes.specs.Needs.{first_missing as first_missing_of};
ghost use Rattle.size_nodes.specs.Members.{IsMemberOfProgram, IsMemberIn, AreMembersOfProgram, AreMembersIn};
ghost use Rattle.size_nodes.specs.Sizings.{IsSpreadSizing, IsCycleSizing, IsTimedSizing, IsLoopSizing, time_key};

use crate::flow::{Flow, Scope, flows_in};
use crate::growth::{FlowKind, Growth, growing_rules, growths_by, maximum_offset};
use crate::loop_bound::loop_bound;
use crate::members::LoopMembers;
use crate::missing::{first_missing, first_untimed};
use crate::nonlinear::first_nonlinear;
use crate::premises::{needed_alone, needed_result_variables};
use crate::rules::rules_in;
use crate::sizing::Sizing;
use crate::transitions::Transitions;
use crate::updates::poly_at;
use bound_expr::{Bound, Memory};
use bound_table::{RewriteResult, rewrite_within};
use cert_types::{Known, Member, ResultVariable, spread_size};
use guard_prep::RuleRows;
use its_graph::Graph;
use std::alloc::Global;

/// The size of a place after a rule whose side bounds read no place of its own loop: the maximum, over the rules that
/// can come before, of both side bounds at the sizes after that rule, with the keys of the sizes that the node needs.
/// If there is none, the first of these reasons is given: `Missing`, a size that isn't known, in the order of the
/// rules before, up before low, places ascending; and `Large`, the number of nodes of the composed bound. `Nonlinear`
/// and `Untimed` never come.
///
/// # Errors
///
/// `Memory` if an allocation fails.
pub fn sized_spread<K: Known>(
    alloc: Global,
    g: &Graph,
    prepared_rules: &[RuleRows],
    known: &K,
    m: &Member,
) -> Result<Sizing, Memory>
    requires { (p : Program) × IsMemberOfProgram p g.now prepared_rules.now (member_of m.now) }
    ensures { IfOk result (λ a. (p : Program) → IsMemberOfProgram p g.now prepared_rules.now (member_of m.now)
        → IsSpreadSizing (setting_of p) (K.table known.now) (member_of m.now) a) }
{
    let transitions = Transitions {
        graph: g,
        rows: prepared_rules,
    };
    let needed = needed_alone(alloc, &transitions, m)?;
    match first_missing(known, &needed) {
        Some(result_variable) => Ok(Sizing::Missing(result_variable)),
        None => sized_composed(alloc, &transitions, known, m, needed),
    }
}

// The size of a place where each size that it needs is known.
fn sized_composed<K: Known>(
    alloc: Global,
    transitions: &Transitions,
    known: &K,
    m: &Member,
    needed: Vec<ResultVariable>,
) -> Result<Sizing, Memory>
    requires given { (p : Program) × IsMemberIn p transitions.now (member_of m.now) }
    requires premises { (p : Program) → IsMemberIn p transitions.now (member_of m.now)
        → map result_variable_of needed.items ≡ needed_into (setting_of p) [] (member_of m.now ∷ []) }
    requires all_known { first_missing_of (K.table known.now) (map result_variable_of needed.items) ≡ None }
    ensures { IfOk result (λ a. (p : Program) → IsMemberIn p transitions.now (member_of m.now)
        → IsSpreadSizing (setting_of p) (K.table known.now) (member_of m.now) a) }
{
    let poly = poly_at(transitions.rows, m.result_variable);
    let before = transitions.graph.pre(m.result_variable.rule);
    match spread_size(alloc, &m.local, poly, before, known)? {
        RewriteResult::Rewritten(bound) => Ok(Sizing::Found {
            premises: needed,
            bound,
        }),
        RewriteResult::Large { nodes } => Ok(Sizing::Large { nodes }),
    }
}

/// The size of all members of a loop of places: the sizes that enter the loop from outside, plus the additions of its
/// rules, each times its time, all times the factor of each rule that multiplies to the power of its time; with the
/// keys of the sizes and then of the times that the node needs. If there is none, the first of these reasons is given:
/// `Missing`, a size from outside that isn't known, in the order of members, then of the rules before, up before low,
/// places ascending; `Nonlinear`, a member of which a polynomial side bound reads a member; `Untimed`, the least rule
/// that multiplies or adds and has no time; and `Large`, the number of nodes of the composed bound.
///
/// # Errors
///
/// `Memory` if an allocation fails.
pub fn sized_cycle<K: Known>(
    alloc: Global,
    g: &Graph,
    prepared_rules: &[RuleRows],
    known: &K,
    members: &[Member],
) -> Result<Sizing, Memory>
    requires { (p : Program) × AreMembersOfProgram p g.now prepared_rules.now (map member_of members.now) }
    ensures { IfOk result (λ a. (p : Program) → AreMembersOfProgram p g.now prepared_rules.now (map member_of members.now)
        → IsCycleSizing (setting_of p) (K.table known.now) (map member_of members.now) a) }
{
    let transitions = Transitions {
        graph: g,
        rows: prepared_rules,
    };
    let cycle = LoopMembers::new(members);
    sized_members(alloc, &transitions, known, &cycle)
}

// The same for the members by their rules.
fn sized_members<K: Known>(
    alloc: Global,
    transitions: &Transitions,
    known: &K,
    cycle: &LoopMembers,
) -> Result<Sizing, Memory>
    requires { (p : Program) × AreMembersIn p transitions.now (map member_of cycle.now.members.now) }
    ensures { IfOk result (λ a. (p : Program) → AreMembersIn p transitions.now (map member_of cycle.now.members.now)
        → IsCycleSizing (setting_of p) (K.table known.now) (map member_of cycle.now.members.now) a) }
{
    let needed = needed_result_variables(alloc, transitions, cycle)?;
    if let Some(result_variable) = first_missing(known, &needed) {
        return Ok(Sizing::Missing(result_variable));
    }
    if let Some(result_variable) = first_nonlinear(transitions, cycle) {
        return Ok(Sizing::Nonlinear(result_variable));
    }
    let flows = flows_in(alloc, transitions, &Scope { known, cycle })?;
    let rules = rules_in(alloc, cycle.members)?;
    sized_by_flows(alloc, known, needed, &flows, &rules)
}

// The size by the flows of a loop and by its rules; the sizes of `needed` are those that the node needs.
fn sized_by_flows<K: Known>(
    alloc: Global,
    known: &K,
    needed: Vec<ResultVariable>,
    flows: &[Flow],
    rules: &[u32],
) -> Result<Sizing, Memory>
    requires { IsNonDecreasingBy (λ f. f.rule) flows.now }
    ensures { IfOk result (λ a. IsLoopSizing (K.table known.now) (map result_variable_of needed.items)
        (base_of (map flow_of flows.now)) (map (growth_by_flows (map flow_of flows.now)) rules.now) a) }
{
    let growths = growths_by(alloc, flows, rules)?;
    let base = maximum_offset(alloc, flows, FlowKind::Outer)?;
    sized_by_growths(alloc, known, needed, base, &growths)
}

// The size by the sizes that enter a loop and by the growth by its rules.
fn sized_by_growths<K: Known>(
    alloc: Global,
    known: &K,
    needed: Vec<ResultVariable>,
    base: Bound,
    growths: &[Growth],
) -> Result<Sizing, Memory>
    ensures { IfOk result (λ a. IsLoopSizing (K.table known.now) (map result_variable_of needed.items) (bound_of base)
        (map growth_of growths.now) a) }
{
    let times = growing_rules(alloc, growths)?;
    match first_untimed(known, &times) {
        Some(rule) => Ok(Sizing::Untimed { rule }),
        None => {
            let composed = loop_bound(alloc, known, base, growths)?;
            let premises = with_times(needed, &times)?;
            sized_where_small(alloc, premises, &composed)
        }
    }
}

// Keys, and after them those of the times of these rules.
fn with_times(needed: Vec<ResultVariable>, rules: &[u32]) -> Result<Vec<ResultVariable>, Memory>
    ensures { IfOk result (λ premises. map result_variable_of premises.items
        ≡ map result_variable_of needed.items ++ map time_key rules.now) }
{
    let mut premises = needed;
    for rule in rules {
        premises.push(ResultVariable {
            rule: *rule,
            place: 0,
        })?;
    }
    Ok(premises)
}

// The size where all times are known, by the composed bound.
fn sized_where_small(
    alloc: Global,
    premises: Vec<ResultVariable>,
    bound: &Bound,
) -> Result<Sizing, Memory>
    ensures { IfOk result (λ a. IsTimedSizing (map result_variable_of premises.items) (bound_of bound.now) a) }
{
    match rewrite_within(alloc, bound)? {
        RewriteResult::Rewritten(small) => Ok(Sizing::Found {
            premises,
            bound: small,
        }),
        RewriteResult::Large { nodes } => Ok(Sizing::Large { nodes }),
    }
}
