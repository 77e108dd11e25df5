//! Checks members by themselves: their shapes and their side bounds.

ghost use Rattle.std.specs.Prelude.{◌↔◌, ◌≤◌, map, IfOk, IsTrue, MatchOption};
ghost use Rattle.std.specs.List.{AllByRecursion};
ghost use Rattle.its_model.specs.Views.{program_of};
ghost use Rattle.cert_context.specs.CheckContexts.{IsCheckContext, setting};
ghost use Rattle.gap_checks.specs.GapTests.{IsFirstFailing};
ghost use Rattle.cert_types.specs.Views.{member_of, result_variable_of};
ghost use Rattle.cert_types.specs.cert_rules.AcceptsSizes.{AcceptsLow, AcceptsUp, HasMemberShape, IsResultVariable};

use crate::side_bound_numbers::has_side_bound_numbers;
use crate::side_bounds::{Side, accepts_side_bound};
use cert_context::{CheckContext, prepared_rule};
use cert_types::{Member, ResultVariable, target_of};
use gap_checks::{arity_at, is_rule};
use its_model::Program;
use model::Memory;
use std::alloc::Global;

// Whether a result variable is a place of the target of a rule.
fn is_result_variable(p: &Program, result_variable: ResultVariable) -> bool
    ensures { IsTrue result ↔ IsResultVariable (program_of p.now) (result_variable_of result_variable) }
{
    if !is_rule(p, result_variable.rule) {
        return false;
    }
    match target_of(p, result_variable.rule) {
        Some(target) => is_place(result_variable.place, arity_at(p, target)),
        None => false,
    }
}

// Whether a place is among the first `count`, counted from 1.
fn is_place(place: u32, count: u32) -> bool
    ensures { IsTrue result ↔ ((1 ≤ place) × (place ≤ count)) }
{
    place >= 1 && place <= count
}

/// Whether the shape of a member is right.
pub(crate) fn has_member_shape(context: &CheckContext, member: &Member) -> bool
    requires { IsCheckContext context.now }
    ensures { IsTrue result ↔ HasMemberShape (setting context.now) (member_of member.now) }
{
    if !is_result_variable(context.program, member.result_variable) {
        return false;
    }
    let rows = prepared_rule(context, member.result_variable.rule);
    has_side_bound_numbers(&member.local.up, rows.left, rows.rows.len())
        && has_side_bound_numbers(&member.local.low, rows.left, rows.rows.len())
}

/// Whether the upper side bound of a member is accepted.
///
/// # Errors
///
/// `Memory` where an allocation fails.
pub(crate) fn accepts_up(
    alloc: Global,
    context: &CheckContext,
    member: &Member,
) -> Result<bool, Memory>
    requires context { IsCheckContext context.now }
    requires shape { HasMemberShape (setting context.now) (member_of member.now) }
    ensures { IfOk result (λ accepted. IsTrue accepted ↔ AcceptsUp (setting context.now) (member_of member.now)) }
{
    let rows = prepared_rule(context, member.result_variable.rule);
    accepts_side_bound(
        alloc,
        rows,
        member.result_variable.place,
        Side::Up,
        &member.local.up,
    )
}

/// Whether the lower side bound of a member is accepted.
///
/// # Errors
///
/// `Memory` where an allocation fails.
pub(crate) fn accepts_low(
    alloc: Global,
    context: &CheckContext,
    member: &Member,
) -> Result<bool, Memory>
    requires context { IsCheckContext context.now }
    requires shape { HasMemberShape (setting context.now) (member_of member.now) }
    ensures { IfOk result (λ accepted. IsTrue accepted ↔ AcceptsLow (setting context.now) (member_of member.now)) }
{
    let rows = prepared_rule(context, member.result_variable.rule);
    accepts_side_bound(
        alloc,
        rows,
        member.result_variable.place,
        Side::Low,
        &member.local.low,
    )
}
