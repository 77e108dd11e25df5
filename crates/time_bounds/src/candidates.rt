//! The components of places, with the parts of their members' local answers that never change.

ghost use Rattle.std.specs.Prelude.{◌≡◌, ◌∷◌, [], length, map, IfOk, Some, None, true, false};
ghost use Rattle.std.specs.List.{All};
ghost use Rattle.std.specs.Option.{option_map};
ghost use Rattle.outcome.specs.Views.{unbounded_of, size_of};
ghost use Rattle.outcome.specs.Reports.{SizeHitLimit, Unsized};
ghost use Rattle.cert_types.specs.Views.{result_variable_of, member_of};
ghost use Rattle.rvg_components.specs.Listing.{answer_lists, local_from};
ghost use Rattle.time_bounds.specs.ProgramSearches.{searches_of_program};
ghost use Rattle.time_bounds.specs.ProgramSizes.{AreMembers, first_reason, unbounded_reason, limit_hit_reason};
ghost use Rattle.time_bounds.specs.ProgramSizes.{lacks_side_bounds};
ghost use Rattle.time_bounds.specs.Questions.{BelongsTogether, program_in};
ghost use Rattle.time_bounds.specs.RuleStatuses.{AreRuleStatuses};
ghost use Rattle.time_bounds.specs.Locals.{answer_in, AreAnswered};
ghost use Rattle.time_bounds.specs.Candidates.{is_bound, IsMember, IsLone, IsAnswered, AreSideBounds, IsSideBoundsOf};
ghost use Rattle.time_bounds.specs.Candidates.{IsArmed};
ghost use Rattle.time_bounds.specs.Candidates.{AreArmed, AreCandidatesOf};

use crate::context::Context;
use crate::copies::copied_unbounded;
use crate::locals::{all_locals, live_rules};
use crate::rule_statuses::RuleStatus;
use cert_types::{LimitHit, Member, ResultVariable, copied_local};
use local_size::LocalAnswer;
use model::Memory;
use outcome::{SizeEntry, UnboundedSide};
use rvg_components::{Component, components};
use std::alloc::Global;

/// A component of places, with its side bounds.
#[derive(Drop)]
pub(crate) struct Candidate {
    pub result_variables: Vec<ResultVariable>,
    pub side_bounds: SideBounds,
}

/// The side bounds of the members of a component.
#[derive(Drop)]
pub(crate) enum SideBounds {
    /// A member has no side bounds, for this reason.
    Lacking(SizeEntry),
    /// The only member doesn't loop.
    Alone(Member),
    /// The members loop.
    Loop(Vec<Member>),
}

/// The components of the places of live rules, in the order in which they are tried, with the side bounds of their
/// members.
pub(crate) fn candidates(
    cx: &Context,
    rule_statuses: &[RuleStatus],
) -> Result<Vec<Candidate>, Memory>
    requires ready { BelongsTogether cx.now }
    requires rule_statuses { AreRuleStatuses (searches_of_program (program_in cx.now) cx.now.pivots) (program_in cx.now) rule_statuses.now }
    ensures { IfOk result (λ cs. AreCandidatesOf (program_in cx.now) cx.now.pivots cs.items) }
{
    let live = live_rules(cx.alloc, rule_statuses)?;
    let locals = all_locals(cx, rule_statuses)?;
    let found = components(cx.alloc, &cx.graph, &cx.prepared_rules, &locals, &live)?;
    with_side_bounds(cx.alloc, &locals, found)
}

// Components with the side bounds of their members.
fn with_side_bounds(
    alloc: Global,
    locals: &[Vec<LocalAnswer>],
    found: Vec<Component>,
) -> Result<Vec<Candidate>, Memory>
    requires { All (IsAnswered (answer_lists locals.now)) found.items }
    ensures { IfOk result (λ cs. AreArmed (local_from (answer_lists locals.now)) found.items cs.items) }
{
    let mut candidates = Vec::new(alloc);
    for component in found {
        candidates.push(with_its_side_bounds(alloc, locals, component)?)?;
    }
    Ok(candidates)
}

// A component with the side bounds of its members.
fn with_its_side_bounds(
    alloc: Global,
    locals: &[Vec<LocalAnswer>],
    component: Component,
) -> Result<Candidate, Memory>
    requires { IsAnswered (answer_lists locals.now) component }
    ensures { IfOk result (λ c. IsArmed (local_from (answer_lists locals.now)) component c) }
{
    let Component { members, looping } = component;
    let side_bounds = side_bounds_of(alloc, locals, &members, looping)?;
    Ok(Candidate {
        result_variables: members,
        side_bounds,
    })
}

// The side bounds of the members of a component: why one has none, the first with an unbounded side, or else the first
// with a limit hit.
fn side_bounds_of(
    alloc: Global,
    locals: &[Vec<LocalAnswer>],
    result_variables: &[ResultVariable],
    looping: bool,
) -> Result<SideBounds, Memory>
    requires answered { AreAnswered (answer_lists locals.now) (map result_variable_of result_variables.now) }
    requires lone { IsLone looping (map result_variable_of result_variables.now) }
    ensures { IfOk result (λ side_bounds. AreSideBounds (local_from (answer_lists locals.now)) (map result_variable_of result_variables.now) looping
        side_bounds) }
{
    match lacking(alloc, locals, result_variables)? {
        Some(entry) => Ok(SideBounds::Lacking(entry)),
        None => {
            let members = members_of(alloc, locals, result_variables)?;
            Ok(as_side_bounds(members, looping))
        }
    }
}

// Why a member has no side bounds, where one has none.
fn lacking(
    alloc: Global,
    locals: &[Vec<LocalAnswer>],
    result_variables: &[ResultVariable],
) -> Result<Option<SizeEntry>, Memory>
    requires { AreAnswered (answer_lists locals.now) (map result_variable_of result_variables.now) }
    ensures { IfOk result (λ entry. option_map size_of entry
        ≡ option_map Unsized (lacks_side_bounds (local_from (answer_lists locals.now)) (map result_variable_of result_variables.now))) }
{
    match first_unbounded(locals, result_variables) {
        Some(unbounded) => Ok(Some(SizeEntry::UnboundedSide(copied_unbounded(alloc, unbounded)?))),
        None => match first_limit_hit(locals, result_variables) {
            Some(limit_hit) => Ok(Some(SizeEntry::OutOfLimits(limit_hit))),
            None => Ok(None),
        },
    }
}

// Members with their side bounds: of a loop, or the only one.
fn as_side_bounds(members: Vec<Member>, looping: bool) -> SideBounds
    requires { looping ≡ false → length members.items ≡ 1 }
    ensures { IsSideBoundsOf members.items looping result }
{
    if looping {
        return SideBounds::Loop(members);
    }
    let mut members = members;
    match members.pop() {
        Some(member) => SideBounds::Alone(member),
        None => unreachable!(),
    }
}

// The first of these places with an unbounded side.
fn first_unbounded<'a>(
    locals: &'a [Vec<LocalAnswer>],
    result_variables: &[ResultVariable],
) -> Option<&'a UnboundedSide>
    requires { AreAnswered (answer_lists locals.now) (map result_variable_of result_variables.now) }
    ensures { option_map (λ l. unbounded_of l.now) result
        ≡ first_reason unbounded_reason (local_from (answer_lists locals.now)) (map result_variable_of result_variables.now) }
{
    for result_variable in result_variables {
        if let LocalAnswer::UnboundedSide(unbounded) = answer_at(locals, *result_variable) {
            return Some(unbounded);
        }
    }
    None
}

// The limit hit of the first of these places whose linear programs hit one.
fn first_limit_hit(
    locals: &[Vec<LocalAnswer>],
    result_variables: &[ResultVariable],
) -> Option<LimitHit>
    requires { AreAnswered (answer_lists locals.now) (map result_variable_of result_variables.now) }
    ensures { option_map (λ t. SizeHitLimit t) result
        ≡ first_reason limit_hit_reason (local_from (answer_lists locals.now)) (map result_variable_of result_variables.now) }
{
    for result_variable in result_variables {
        if let LocalAnswer::OutOfLimits(limit_hit) = answer_at(locals, *result_variable) {
            return Some(*limit_hit);
        }
    }
    None
}

// These places, each of which has a local bound, with their local bounds.
fn members_of(
    alloc: Global,
    locals: &[Vec<LocalAnswer>],
    result_variables: &[ResultVariable],
) -> Result<Vec<Member>, Memory>
    requires answered { AreAnswered (answer_lists locals.now) (map result_variable_of result_variables.now) }
    requires armed { lacks_side_bounds (local_from (answer_lists locals.now)) (map result_variable_of result_variables.now) ≡ None }
    ensures { IfOk result (λ members. AreMembers (local_from (answer_lists locals.now)) (map result_variable_of result_variables.now)
        (map member_of members.items)) }
{
    let mut members = Vec::new(alloc);
    for result_variable in result_variables {
        members.push(member_at(alloc, locals, *result_variable)?)?;
    }
    Ok(members)
}

// A place that has a local bound, with this bound.
fn member_at(
    alloc: Global,
    locals: &[Vec<LocalAnswer>],
    result_variable: ResultVariable,
) -> Result<Member, Memory>
    requires { (a : LocalAnswer) × (answer_in (answer_lists locals.now) result_variable.rule result_variable.place ≡ Some a)
        × (is_bound a ≡ true) }
    ensures { IfOk result (λ m. IsMember (local_from (answer_lists locals.now)) (result_variable_of result_variable) (member_of m)) }
{
    match answer_at(locals, result_variable) {
        LocalAnswer::Bound(local) => Ok(Member {
            result_variable,
            local: copied_local(alloc, local)?,
        }),
        LocalAnswer::UnboundedSide(_) => unreachable!(),
        LocalAnswer::OutOfLimits(_) => unreachable!(),
    }
}

// The answer for a place, which has one.
fn answer_at(locals: &[Vec<LocalAnswer>], result_variable: ResultVariable) -> &LocalAnswer
    requires { (a : LocalAnswer) × (answer_in (answer_lists locals.now) result_variable.rule result_variable.place ≡ Some a) }
    ensures { answer_in (answer_lists locals.now) result_variable.rule result_variable.place ≡ Some result.now }
{
    &locals[result_variable.rule as usize - 1][result_variable.place as usize - 1]
}
