//! The flows of values into the members of a loop.

ghost use Rattle.std.specs.Prelude.{◌≡◌, ℕ, ◌+◌, ◌*◌, ◌^◌, ◌≤◌, ◌++◌, ◌∷◌, [], cond, length, map, All};
ghost use Rattle.std.specs.Prelude.{IfOk, OnOk, nat_abs};
ghost use Rattle.poly_terms.specs.linear_forms.Limits.{certificate_limit};
ghost use Rattle.model.specs.Programs.{Program};
ghost use Rattle.model.specs.Paths.{pre};
ghost use Rattle.cert_types.specs.cert_rules.ComposedSizes.{inner_sum as inner_sum_of, is_member, slope_of};
ghost use Rattle.cert_types.specs.cert_rules.ComposedSizes.{flows_from};
ghost use Rattle.cert_types.specs.cert_rules.ComposedSizes.{flows};
ghost use Rattle.cert_types.specs.cert_rules.Limits.{IsInLimit};
ghost use Rattle.cert_types.specs.cert_rules.Numbers.{rounded_up};
ghost use Rattle.cert_types.specs.cert_program.Setting.{setting_of};
ghost use Rattle.cert_types.specs.Composing.{optional_poly, HasFewPlaces};
ghost use Rattle.cert_types.specs.Sizes.{is_result_variable, members_from};
ghost use Rattle.cert_types.specs.Views.{side_bound_of, member_of};
ghost use Rattle.size_nodes.specs.Flows.{IsLimited, flow_of, flow_over, flows_over};
ghost use Rattle.size_nodes.specs.Members.{IsMemberIn, AreMembersIn};

use crate::members::LoopMembers;
use crate::transitions::Transitions;
use crate::updates::poly_at;
use bound_expr::{Bound, Memory};
use cert_types::{
    Known, Member, SideBound, composed_side_bound, has_result_variable, rounded_coefficient,
};
use poly_terms::Poly;
use std::alloc::Global;

/// A flow into a member by one side bound from one rule before.
#[derive(Drop)]
pub(crate) struct Flow {
    /// The member's rule.
    pub rule: u32,
    /// The slope: the sum of the side bound's coefficients at members.
    pub slope: u64,
    /// The part of the side bound besides the members.
    pub offset: Bound,
}

/// The bounds that the side bounds of a loop's members read: those known outside of it, and the members.
#[derive(Drop)]
pub(crate) struct Scope<'a, 'b, K> {
    pub known: &'a K,
    pub cycle: &'a LoopMembers<'b>,
}

// A rule before a member, with the members that are places after it.
#[derive(Clone, Copy)]
struct Source<'a> {
    rule: u32,
    members: &'a [Member],
}

// The member that flows come into, with the update of its place if that has degree 2 or more.
#[derive(Clone, Copy)]
struct Sink<'a> {
    member: &'a Member,
    poly: Option<&'a Poly>,
}

// The coefficient of a place over the denominator, rounded up, if the place is a member; else 0.
#[tactic(auto, using(crate::proofs::Slopes::zero_inner))]
fn inner(coef: &i64, den: u64, members: &[Member], rule: u32, place: u32) -> u64
    requires over { 1 ≤ den }
    requires limit { IsInLimit (nat_abs coef.now) }
    ensures sum { result ≡ cond (is_result_variable (map member_of members.now) rule place) (rounded_up (nat_abs coef.now) den) 0 }
    ensures limit { result ≤ certificate_limit }
{
    if *coef == 0 {
        return 0;
    }
    if has_result_variable(members, rule, place) {
        rounded_coefficient(coef, den) as u64
    } else {
        0
    }
}

// The sum, over the places that are members, of the coefficient over the denominator, rounded up. The first place has
// this number.
fn inner_sum(coefs: &[i64], den: u64, members: &[Member], rule: u32, place: u32) -> u64
    requires over { 1 ≤ den }
    requires few { place + length coefs.now ≤ 65 }
    requires limit { All (λ c. IsInLimit (nat_abs c)) coefs.now }
    ensures sum { result ≡ inner_sum_of coefs.now den (members_from (map member_of members.now) rule place) }
    ensures limit { result ≤ length coefs.now * certificate_limit }
{
    let Some((coef, others)) = coefs.split_first() else {
        return 0;
    };
    inner(coef, den, members, rule, place) + inner_sum(others, den, members, rule, place + 1)
}

// The sum of a side bound's coefficients at members, after a rule.
#[tactic(auto, using(crate::proofs::Slopes::outer_slope))]
fn slope(side_bound: &SideBound, source: &Source) -> u64
    requires { IsLimited side_bound.now }
    ensures { result ≡ slope_of (side_bound_of side_bound.now) (is_member (map member_of source.now.members.now) source.now.rule) }
{
    if source.members.is_empty() {
        return 0;
    }
    match side_bound {
        SideBound::Linear { den, coefs, .. } => inner_sum(
            coefs,
            *den,
            source.members,
            source.rule,
            1,
        ),
        SideBound::Poly => 0,
    }
}

// The flow into a member by a side bound from a rule before.
fn flow_by<K: Known>(
    alloc: Global,
    known: &K,
    sink: &Sink,
    side_bound: &SideBound,
    source: &Source,
) -> Result<Flow, Memory>
    requires limited { IsLimited side_bound.now }
    requires few { HasFewPlaces sink.now.poly }
    ensures { IfOk result (λ f. flow_of f ≡ flow_over (optional_poly sink.now.poly)
        (map member_of source.now.members.now) (K.table known.now).size (member_of sink.now.member.now)
        (side_bound_of side_bound.now) source.now.rule) }
{
    let offset = composed_side_bound(
        alloc,
        side_bound,
        sink.poly,
        known,
        source.rule,
        source.members,
    )?;
    Ok(Flow {
        rule: sink.member.result_variable.rule,
        slope: slope(side_bound, source),
        offset,
    })
}

// Pushes the flows into a member from a rule before it, the one by the upper side bound first.
fn push_both<K: Known>(
    alloc: Global,
    flows: &mut Vec<Flow>,
    known: &K,
    sink: &Sink,
    source: &Source,
) -> Result<(), Memory>
    requires up { IsLimited sink.now.member.now.local.up }
    requires low { IsLimited sink.now.member.now.local.low }
    requires few { HasFewPlaces sink.now.poly }
    ensures { OnOk result (map flow_of flows.new.items ≡ map flow_of flows.old.items
        ++ flows_over (optional_poly sink.now.poly) (map member_of source.now.members.now)
        (K.table known.now).size (member_of sink.now.member.now) (source.now.rule ∷ [])) }
{
    let up = flow_by(alloc, known, sink, &sink.member.local.up, source)?;
    flows.push(up)?;
    let low = flow_by(alloc, known, sink, &sink.member.local.low, source)?;
    flows.push(low)?;
    Ok(())
}

// Pushes the flows into a member from these rules. Only the members after the rule before are examined.
fn push_flows<K: Known>(
    alloc: Global,
    flows: &mut Vec<Flow>,
    scope: &Scope<K>,
    sink: &Sink,
    before: &[u32],
) -> Result<(), Memory>
    requires up { IsLimited sink.now.member.now.local.up }
    requires low { IsLimited sink.now.member.now.local.low }
    requires few { HasFewPlaces sink.now.poly }
    ensures { OnOk result (map flow_of flows.new.items ≡ map flow_of flows.old.items
        ++ flows_over (optional_poly sink.now.poly) (map member_of scope.now.cycle.now.members.now)
        (K.table scope.now.known.now).size (member_of sink.now.member.now) before.now) }
{
    for rule in before {
        let source = Source {
            rule: *rule,
            members: scope.cycle.after(*rule),
        };
        push_both(alloc, flows, scope.known, sink, &source)?;
    }
    Ok(())
}

// Pushes the flows into a member from the rules that can come before it.
fn push_flows_into<K: Known>(
    alloc: Global,
    flows: &mut Vec<Flow>,
    transitions: &Transitions,
    scope: &Scope<K>,
    member: &Member,
) -> Result<(), Memory>
    requires { (p : Program) × IsMemberIn p transitions.now (member_of member.now) }
    ensures { OnOk result ((p : Program) → IsMemberIn p transitions.now (member_of member.now)
        → map flow_of flows.new.items ≡ map flow_of flows.old.items ++ flows_from (setting_of p)
        (map member_of scope.now.cycle.now.members.now) (K.table scope.now.known.now).size (member_of member.now)
        (pre p member.now.result_variable.rule)) }
{
    let poly = poly_at(transitions.rows, member.result_variable);
    let before = transitions.graph.pre(member.result_variable.rule);
    push_flows(alloc, flows, scope, &Sink { member, poly }, before)
}

/// All flows into the members of a loop: by members, then by the rules that can come before, then up before low.
///
/// # Errors
///
/// `Memory` if an allocation fails.
pub(crate) fn flows_in<K: Known>(
    alloc: Global,
    transitions: &Transitions,
    scope: &Scope<K>,
) -> Result<Vec<Flow>, Memory>
    requires { (p : Program) × AreMembersIn p transitions.now (map member_of scope.now.cycle.now.members.now) }
    ensures { IfOk result (λ fs. (p : Program)
        → AreMembersIn p transitions.now (map member_of scope.now.cycle.now.members.now)
        → map flow_of fs.items ≡ flows (setting_of p) (map member_of scope.now.cycle.now.members.now)
        (K.table scope.now.known.now).size) }
{
    let mut flows = Vec::new(alloc);
    for member in scope.cycle.members {
        push_flows_into(alloc, &mut flows, transitions, scope, member)?;
    }
    Ok(flows)
}
