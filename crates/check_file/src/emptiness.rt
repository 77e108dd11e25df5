//! Checks that the rows of a rule have no point.

ghost use Rattle.std.specs.Prelude.{◌≡◌, ◌↔◌, ◌∷◌, [], IsTrue, MatchResult};
ghost use Rattle.model.specs.Bounds.{Constant};
ghost use Rattle.model.specs.Facts.{Time};
ghost use Rattle.cert_context.specs.CheckContexts.{IsCheckContext, setting};
ghost use Rattle.cert_context.specs.NodeAnswers.{States};
ghost use Rattle.cert_types.specs.cert_rules.Checks.{empty_checks};
ghost use Rattle.cert_context.specs.NodeAnswers.{Refuses};
ghost use Rattle.cert_types.specs.cert_rules.AcceptsPlain.{HasEmptyShape};

use cert_context::{CheckContext, NodeFault, are_multipliers, prepared_rule, zero_time};
use cert_types::{EmptyNode, Fact, Reason};
use farkas_cert::empty;
use gap_checks::is_rule;
use std::alloc::Global;

/// The fact of a node on an empty rule.
///
/// # Errors
///
/// `Refused` with the first reason why the node isn't accepted; `Memory` where an allocation fails.
pub(crate) fn empty_facts(
    alloc: Global,
    context: &CheckContext,
    node: &EmptyNode,
) -> Result<Vec<Fact>, NodeFault>
    requires { IsCheckContext context.now }
    ensures { MatchResult result
        (λ facts. States (empty_checks (setting context.now) node.now.rule node.now.multipliers.items)
        (Time node.now.rule (Constant 0) ∷ []) facts)
        (λ fault. Refuses (empty_checks (setting context.now) node.now.rule node.now.multipliers.items) fault) }
{
    if !has_empty_shape(context, node.rule, &node.multipliers) {
        return Err(NodeFault::Refused(Reason::Shape));
    }
    let is_empty = empty(&prepared_rule(context, node.rule).rows, &node.multipliers);
    if !is_empty {
        return Err(NodeFault::Refused(Reason::Empty));
    }
    Ok(zero_time(alloc, node.rule)?)
}

// Whether the rule exists, and has a multiplier for each row.
fn has_empty_shape(context: &CheckContext, rule: u32, multipliers: &[u64]) -> bool
    requires { IsCheckContext context.now }
    ensures { IsTrue result ↔ HasEmptyShape (setting context.now) rule multipliers.now }
{
    if !is_rule(context.program, rule) {
        return false;
    }
    are_multipliers(context, rule, multipliers)
}
