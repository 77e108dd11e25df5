//! The growth by each rule of a loop: the factor by which it multiplies, and what it adds.

ghost use Rattle.std.specs.Prelude.{◌≡◌, map, IfOk, OnOk};
ghost use Rattle.std.specs.List.Sorted.{IsNonDecreasingBy};
ghost use Rattle.model.specs.Bounds.{MaximumOf};
ghost use Rattle.bound_expr.specs.Views.{bound_of, bounds_of, parts_of};
ghost use Rattle.cert_types.specs.cert_rules.Known.{is_zero_bound};
ghost use Rattle.cert_types.specs.cert_rules.ComposedSizes.{offsets, factor_of};
ghost use Rattle.cert_types.specs.Sizes.{joined};
ghost use Rattle.size_nodes.specs.Flows.{flow_of};
ghost use Rattle.size_nodes.specs.Growths.{is_of, offset_part, growth_of, growth_by_flows, growing_rule_numbers};

use crate::flow::Flow;
use crate::rule_flows::flows_of_rule;
use bound_expr::{Bound, Memory};
use bound_table::rewrite;
use std::alloc::Global;

/// The flows over which a maximum is taken.
#[derive(Clone, Copy)]
pub(crate) enum FlowKind {
    /// Those that take no member.
    Outer,
    /// Those of this rule that take members.
    Inner(u32),
}

/// The growth of a loop's members by one of its rules.
#[derive(Drop)]
pub(crate) struct Growth {
    /// The rule.
    pub rule: u32,
    /// The factor by which it multiplies, at least 1.
    pub factor: u64,
    /// The addition of the rule.
    pub addition: Bound,
    /// Whether the addition, rewritten, isn't 0.
    pub adds: bool,
}

// Whether a flow is of a kind.
fn is_of_kind(flow: &Flow, kind: FlowKind) -> bool
    ensures { result ≡ is_of kind (flow_of flow.now) }
{
    match kind {
        FlowKind::Outer => flow.slope == 0,
        FlowKind::Inner(rule) => flow.rule == rule && flow.slope != 0,
    }
}

// Pushes a copy of the offset of a flow, if it is of the kind.
fn push_offset(
    alloc: Global,
    parts: &mut Vec<Bound>,
    flow: &Flow,
    kind: FlowKind,
) -> Result<(), Memory>
    ensures { OnOk result (parts_of (bounds_of parts.new.items) ≡ joined (parts_of (bounds_of parts.old.items))
        (offset_part (is_of kind) (flow_of flow.now))) }
{
    let is_in = is_of_kind(flow, kind);
    if !is_in {
        return Ok(());
    }
    let offset = flow.offset.copied(alloc)?;
    parts.push(offset)?;
    Ok(())
}

/// The maximum offset of the flows of a kind.
///
/// # Errors
///
/// `Memory` if an allocation fails.
pub(crate) fn maximum_offset(alloc: Global, flows: &[Flow], kind: FlowKind) -> Result<Bound, Memory>
    ensures { IfOk result (λ b. bound_of b ≡ MaximumOf (offsets (is_of kind) (map flow_of flows.now))) }
{
    let mut parts = Vec::new(alloc);
    for flow in flows {
        push_offset(alloc, &mut parts, flow, kind)?;
    }
    Ok(Bound::Max(parts))
}

// The factor by which a rule multiplies: the maximum of 1 and the slopes of its flows.
fn factor(flows: &[Flow], rule: u32) -> u64
    ensures { result ≡ factor_of (map flow_of flows.now) rule }
{
    let mut maximum = 1;
    for flow in flows {
        if flow.rule == rule {
            maximum = maximum.max(flow.slope);
        }
    }
    maximum
}

/// Whether a bound is the constant 0.
pub fn is_zero(b: &Bound) -> bool
    ensures { result ≡ is_zero_bound (bound_of b.now) }
{
    match b {
        Bound::Const(c) => *c == 0,
        _ => false,
    }
}

// The growth by a rule, given these flows.
fn growth_by(alloc: Global, flows: &[Flow], rule: u32) -> Result<Growth, Memory>
    ensures { IfOk result (λ g. growth_of g ≡ growth_by_flows (map flow_of flows.now) rule) }
{
    let addition = maximum_offset(alloc, flows, FlowKind::Inner(rule))?;
    let outcome = rewrite(alloc, &addition)?;
    Ok(Growth {
        rule,
        factor: factor(flows, rule),
        addition,
        adds: !is_zero(&outcome),
    })
}

/// The growth by each of these rules, given these flows, in order. The flows are ordered by rules, and each rule looks
/// only at its own.
///
/// # Errors
///
/// `Memory` if an allocation fails.
pub(crate) fn growths_by(
    alloc: Global,
    flows: &[Flow],
    rules: &[u32],
) -> Result<Vec<Growth>, Memory>
    requires { IsNonDecreasingBy (λ f. f.rule) flows.now }
    ensures { IfOk result (λ gs. map growth_of gs.items ≡ map (growth_by_flows (map flow_of flows.now)) rules.now) }
{
    let mut growths = Vec::new(alloc);
    for rule in rules {
        let one = growth_by(alloc, flows_of_rule(flows, *rule), *rule)?;
        growths.push(one)?;
    }
    Ok(growths)
}

/// The rules that multiply or add, in order.
///
/// # Errors
///
/// `Memory` if an allocation fails.
pub(crate) fn growing_rules(alloc: Global, growths: &[Growth]) -> Result<Vec<u32>, Memory>
    ensures { IfOk result (λ ts. ts.items ≡ growing_rule_numbers (map growth_of growths.now)) }
{
    let mut rules = Vec::new(alloc);
    for growth in growths {
        if growth.factor > 1 || growth.adds {
            rules.push(growth.rule)?;
        }
    }
    Ok(rules)
}
