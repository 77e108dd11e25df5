//! Checks nodes on the sizes of the members of a loop.

ghost use Rattle.std.specs.Prelude.{◌↔◌, map, IfOk, IsTrue, MatchOption, MatchResult};
ghost use Rattle.std.specs.List.{All, AllByRecursion};
ghost use Rattle.cert_context.specs.CheckContexts.{IsCheckContext, setting};
ghost use Rattle.cert_context.specs.NodeAnswers.{Refuses, States};
ghost use Rattle.gap_checks.specs.GapTests.{IsFirstFailing};
ghost use Rattle.cert_types.specs.Views.{member_of, result_variable_of};
ghost use Rattle.cert_types.specs.cert_rules.AcceptsSizes.{AcceptsLow, AcceptsUp, AreAscending, ComesBefore};
ghost use Rattle.cert_types.specs.cert_rules.AcceptsSizes.{HasCycleShape, HasMemberShape};
ghost use Rattle.cert_types.specs.cert_rules.AcceptsSizes.{cycle_facts as facts_of_loop, cycle_size};
ghost use Rattle.cert_types.specs.cert_rules.Checks.{cycle_checks};

use crate::members::{accepts_low, accepts_up, has_member_shape};
use crate::stating::stated;
use cert_context::{CheckContext, NodeFault};
use cert_types::{CycleNode, Fact, Known, Member, Reason, ResultVariable};
use model::Memory;
use size_nodes::sized_cycle;
use std::alloc::Global;

// Whether a result variable comes before another.
fn comes_before(first: ResultVariable, second: ResultVariable) -> bool
    ensures { IsTrue result ↔ ComesBefore (result_variable_of first) (result_variable_of second) }
{
    first.rule < second.rule || (first.rule == second.rule && first.place < second.place)
}

// Whether a member comes before another.
fn precedes(first: &Member, second: &Member) -> bool
    ensures { IsTrue result ↔ ComesBefore (result_variable_of first.now.result_variable) (result_variable_of second.now.result_variable) }
{
    comes_before(first.result_variable, second.result_variable)
}

// Whether members ascend.
fn ascend(members: &[Member]) -> bool
    ensures { IsTrue result ↔ AreAscending (map member_of members.now) }
{
    for i in 1..members.len() {
        let fits = precedes(&members[i - 1], &members[i]);
        if !fits {
            return false;
        }
    }
    true
}

// Whether the shape of each member is right.
fn have_member_shapes(context: &CheckContext, members: &[Member]) -> bool
    requires { IsCheckContext context.now }
    ensures { IsTrue result ↔ All (HasMemberShape (setting context.now)) (map member_of members.now) }
{
    for member in members {
        let fits = has_member_shape(context, member);
        if !fits {
            return false;
        }
    }
    true
}

// Whether there are members, which ascend and have the right shapes.
fn has_cycle_shape(context: &CheckContext, members: &[Member]) -> bool
    requires { IsCheckContext context.now }
    ensures { IsTrue result ↔ HasCycleShape (setting context.now) (map member_of members.now) }
{
    if members.is_empty() {
        return false;
    }
    if !ascend(members) {
        return false;
    }
    have_member_shapes(context, members)
}

// The first member whose upper side bound isn't accepted.
fn first_refused_up<'a>(
    alloc: Global,
    context: &CheckContext,
    members: &'a [Member],
) -> Result<Option<&'a Member>, Memory>
    requires context { IsCheckContext context.now }
    requires shapes { All (HasMemberShape (setting context.now)) (map member_of members.now) }
    ensures { IfOk result (λ off. MatchOption off
        (AllByRecursion (AcceptsUp (setting context.now)) (map member_of members.now))
        (λ m. IsFirstFailing (AcceptsUp (setting context.now)) (map member_of members.now) (member_of m.now))) }
{
    for member in members {
        let fits = accepts_up(alloc, context, member)?;
        if !fits {
            return Ok(Some(member));
        }
    }
    Ok(None)
}

// The first member whose lower side bound isn't accepted.
fn first_refused_low<'a>(
    alloc: Global,
    context: &CheckContext,
    members: &'a [Member],
) -> Result<Option<&'a Member>, Memory>
    requires context { IsCheckContext context.now }
    requires shapes { All (HasMemberShape (setting context.now)) (map member_of members.now) }
    ensures { IfOk result (λ off. MatchOption off
        (AllByRecursion (AcceptsLow (setting context.now)) (map member_of members.now))
        (λ m. IsFirstFailing (AcceptsLow (setting context.now)) (map member_of members.now) (member_of m.now))) }
{
    for member in members {
        let fits = accepts_low(alloc, context, member)?;
        if !fits {
            return Ok(Some(member));
        }
    }
    Ok(None)
}

/// The facts of a node on the sizes of the members of a loop.
///
/// # Errors
///
/// `Refused` with the first reason why the node isn't accepted; `Memory` where an allocation fails.
pub fn cycle_facts<K: Known>(
    alloc: Global,
    context: &CheckContext,
    node: &CycleNode,
    known: &K,
) -> Result<Vec<Fact>, NodeFault>
    requires { IsCheckContext context.now }
    ensures { MatchResult result
        (λ facts. States (cycle_checks (setting context.now) (K.table known.now) (map member_of node.now.members.items))
        (facts_of_loop ((setting context.now).rewrite
        (cycle_size (setting context.now) (K.table known.now) (map member_of node.now.members.items)))
        (map member_of node.now.members.items)) facts)
        (λ fault. Refuses
        (cycle_checks (setting context.now) (K.table known.now) (map member_of node.now.members.items)) fault) }
{
    loop_facts(alloc, context, &node.members, known)
}

// The facts of the members of a loop.
fn loop_facts<K: Known>(
    alloc: Global,
    context: &CheckContext,
    members: &[Member],
    known: &K,
) -> Result<Vec<Fact>, NodeFault>
    requires { IsCheckContext context.now }
    ensures { MatchResult result
        (λ facts. States (cycle_checks (setting context.now) (K.table known.now) (map member_of members.now))
        (facts_of_loop ((setting context.now).rewrite
        (cycle_size (setting context.now) (K.table known.now) (map member_of members.now)))
        (map member_of members.now)) facts)
        (λ fault. Refuses (cycle_checks (setting context.now) (K.table known.now) (map member_of members.now)) fault) }
{
    if !has_cycle_shape(context, members) {
        return Err(NodeFault::Refused(Reason::Shape));
    }
    if let Some(member) = first_refused_up(alloc, context, members)? {
        return Err(NodeFault::Refused(Reason::SideBoundUp {
            rule: member.result_variable.rule,
            place: member.result_variable.place,
        }));
    }
    if let Some(member) = first_refused_low(alloc, context, members)? {
        return Err(NodeFault::Refused(Reason::SideBoundLow {
            rule: member.result_variable.rule,
            place: member.result_variable.place,
        }));
    }
    let sizing = sized_cycle(
        alloc,
        &context.graph,
        &context.prepared_rules,
        known,
        members,
    )?;
    stated(alloc, members, sizing)
}
