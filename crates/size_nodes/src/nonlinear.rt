//! The members of a loop with a polynomial side bound that reads a member.

ghost use Rattle.std.specs.Prelude.{◌≡◌, ◌<◌, ◌^◌, map, All, option_map};
ghost use Rattle.std.specs.List.{list_any};
ghost use Rattle.model.specs.Programs.{Program};
ghost use Rattle.poly_terms.specs.Views.{monomial_of};
ghost use Rattle.cert_types.specs.cert_rules.ComposedSizes.{is_member};
ghost use Rattle.cert_types.specs.cert_program.Setting.{setting_of};
ghost use Rattle.cert_types.specs.Composing.{optional_poly, HasFewVariables, HasFewPlaces};
ghost use Rattle.cert_types.specs.Views.{side_bound_of, member_of, local_of, result_variable_of};
ghost use Rattle.size_nodes.specs.NonlinearSideBounds.{is_nonlinear_side_bound, is_nonlinear_from, is_nonlinear_over, is_nonlinear_by};
ghost use Rattle.size_nodes.specs.NonlinearSideBounds.{first_nonlinear as first_nonlinear_of};
ghost use Rattle.size_nodes.specs.Members.{IsMemberIn, AreMembersIn};

use crate::members::LoopMembers;
use crate::transitions::Transitions;
use crate::updates::poly_at;
use cert_types::{LocalBound, Member, ResultVariable, SideBound, has_result_variable};
use poly_terms::{Monomial, Poly};

// Whether one of these variables is the place of a member, after a rule.
fn has_member(variables: &[u32], members: &[Member], rule: u32) -> bool
    requires { All (λ v. v < 2 ^ 31) variables.now }
    ensures { result ≡ list_any (is_member (map member_of members.now) rule) variables.now }
{
    for variable in variables {
        let is_inside = has_result_variable(members, rule, *variable + 1);
        if is_inside {
            return true;
        }
    }
    false
}

// Whether one of these monomials reads a member, after a rule.
fn reads_member(monomials: &[Monomial], members: &[Member], rule: u32) -> bool
    requires { All HasFewVariables monomials.now }
    ensures { result ≡ list_any (λ m. list_any (is_member (map member_of members.now) rule) m.vars) (map monomial_of
        monomials.now) }
{
    for monomial in monomials {
        let reads = has_member(&monomial.vars, members, rule);
        if reads {
            return true;
        }
    }
    false
}

// Whether a side bound is polynomial and reads a member, after a rule.
fn is_nonlinear(side_bound: &SideBound, poly: Option<&Poly>, members: &[Member], rule: u32) -> bool
    requires { HasFewPlaces poly }
    ensures { result ≡ is_nonlinear_side_bound (optional_poly poly.entry) (map member_of members.now) (side_bound_of side_bound.now) rule }
{
    match (side_bound, poly) {
        (SideBound::Poly, Some(q)) => reads_member(&q.terms, members, rule),
        _ => false,
    }
}

// Whether one of both side bounds is polynomial and reads a member, after a rule. Only the members after it are
// examined.
fn is_nonlinear_bound(
    local: &LocalBound,
    poly: Option<&Poly>,
    cycle: &LoopMembers,
    rule: u32,
) -> bool
    requires { HasFewPlaces poly }
    ensures { result ≡ is_nonlinear_from (optional_poly poly.entry) (map member_of cycle.now.members.now)
        (local_of local.now) rule }
{
    let inside = cycle.after(rule);
    is_nonlinear(&local.up, poly, inside, rule) || is_nonlinear(&local.low, poly, inside, rule)
}

// Whether one of both side bounds is polynomial and reads a member, after one of these rules.
fn is_nonlinear_after(
    local: &LocalBound,
    poly: Option<&Poly>,
    cycle: &LoopMembers,
    before: &[u32],
) -> bool
    requires { HasFewPlaces poly }
    ensures { result ≡ is_nonlinear_over (optional_poly poly.entry) (map member_of cycle.now.members.now)
        (local_of local.now) before.now }
{
    for rule in before {
        let is_here = is_nonlinear_bound(local, poly, cycle, *rule);
        if is_here {
            return true;
        }
    }
    false
}

// Whether one of both side bounds of a member is polynomial and reads a member, after one of the rules that can come
// before it.
fn is_nonlinear_member(transitions: &Transitions, cycle: &LoopMembers, member: &Member) -> bool
    requires { (p : Program) × IsMemberIn p transitions.now (member_of member.now) }
    ensures { (p : Program) → IsMemberIn p transitions.now (member_of member.now)
        → result ≡ is_nonlinear_by (setting_of p) (map member_of cycle.now.members.now) (member_of member.now) }
{
    let poly = poly_at(transitions.rows, member.result_variable);
    is_nonlinear_after(
        &member.local,
        poly,
        cycle,
        transitions.graph.pre(member.result_variable.rule),
    )
}

/// The first member with a polynomial side bound that reads a member, after a rule that can come before it.
pub(crate) fn first_nonlinear(
    transitions: &Transitions,
    cycle: &LoopMembers,
) -> Option<ResultVariable>
    requires { (p : Program) × AreMembersIn p transitions.now (map member_of cycle.now.members.now) }
    ensures { (p : Program) → AreMembersIn p transitions.now (map member_of cycle.now.members.now)
        → option_map result_variable_of result ≡ first_nonlinear_of (setting_of p) (map member_of cycle.now.members.now) (map member_of
        cycle.now.members.now) }
{
    for member in cycle.members {
        let is_here = is_nonlinear_member(transitions, cycle, member);
        if is_here {
            return Some(member.result_variable);
        }
    }
    None
}
