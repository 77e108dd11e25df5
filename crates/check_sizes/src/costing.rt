//! Checks nodes on the costs of rules.

ghost use Rattle.std.specs.Prelude.{◌≡◌, ◌∷◌, [], length, MatchResult};
ghost use Rattle.model.specs.Facts.{Cost};
ghost use Rattle.cert_context.specs.CheckContexts.{IsCheckContext, setting};
ghost use Rattle.cert_context.specs.NodeAnswers.{Refuses, States};
ghost use Rattle.check_sizes.specs.CostAnswers.{AnswersCost, IsCostRule};
ghost use Rattle.check_sizes.specs.Costs.{AreRowMultipliers, HasNumbersBy, cost_node};
ghost use Rattle.cert_types.specs.Views.{cost_by_of};
ghost use Rattle.cert_types.specs.cert_rules.AcceptsCosts.{node_cost};
ghost use Rattle.cert_types.specs.cert_rules.Checks.{cost_checks};
ghost use Rattle.cert_types.specs.cert_rules.Known.{Table};
ghost use Rattle.cert_types.specs.cert_rules.Nodes.{EmptyCost, NeverCost};

use crate::cost_rows::{CostRule, has_cost_numbers};
use crate::side_bound_costs::side_bound_cost;
use bound_expr::Bound;
use cert_context::{CheckContext, NodeFault, one, prepared_cost_rule};
use cert_types::{CostBy, CostNode, Fact, Known, Reason};
use farkas_cert::empty;
use size_nodes::is_zero;
use std::alloc::Global;

/// The fact of a node on the cost of a rule.
///
/// # Errors
///
/// `Refused` with the first reason why the node isn't accepted; `Memory` where an allocation fails.
pub fn cost_facts<K: Known>(
    alloc: Global,
    context: &CheckContext,
    node: &CostNode,
    known: &K,
) -> Result<Vec<Fact>, NodeFault>
    requires { IsCheckContext context.now }
    ensures { MatchResult result
        (λ facts. States (cost_checks (setting context.now) (K.table known.now) (cost_node node.now))
        (Cost node.now.rule (node_cost (setting context.now) (K.table known.now) (cost_node node.now)) ∷ []) facts)
        (λ fault. Refuses (cost_checks (setting context.now) (K.table known.now) (cost_node node.now)) fault) }
{
    let Some(prepared) = prepared_cost_rule(context, node.rule) else {
        return Err(NodeFault::Refused(Reason::Shape));
    };
    if !has_cost_numbers(prepared, &node.by) {
        return Err(NodeFault::Refused(Reason::Shape));
    }
    let costing = CostRule {
        context,
        rule: node.rule,
        prepared,
    };
    match cost_by(alloc, &costing, &node.by, known) {
        Ok(bound) => {
            let fact = Fact::Cost {
                rule: node.rule,
                bound,
            };
            Ok(one(alloc, fact)?)
        }
        Err(fault) => Err(fault),
    }
}

// The cost that is stated for a rule with a cost, as it is certified.
fn cost_by<K: Known>(
    alloc: Global,
    costing: &CostRule,
    by: &CostBy,
    known: &K,
) -> Result<Bound, NodeFault>
    requires rule { IsCostRule costing.now }
    requires numbers { HasNumbersBy (length costing.now.prepared.now.rows.items) costing.now.prepared.now.left
        (cost_by_of by.now) }
    ensures { AnswersCost costing.now (K.table known.now) (cost_by_of by.now) result }
{
    match by {
        CostBy::Empty(multipliers) => no_cost(costing, multipliers),
        CostBy::Never => never_cost(costing, known),
        CostBy::SideBound(side_bound) => side_bound_cost(alloc, costing, side_bound, known),
    }
}

// The cost 0, if the cost rows are shown to have no point.
fn no_cost(costing: &CostRule, multipliers: &[u64]) -> Result<Bound, NodeFault>
    requires rule { IsCostRule costing.now }
    requires numbers { AreRowMultipliers (length costing.now.prepared.now.rows.items) multipliers.now }
    ensures { (table : Table) → AnswersCost costing.now table (EmptyCost multipliers.now) result }
{
    let is_empty = empty(&costing.prepared.rows, multipliers);
    if is_empty {
        Ok(Bound::Const(0))
    } else {
        Err(NodeFault::Refused(Reason::Empty))
    }
}

// The cost 0, if the rule is known never to run.
fn never_cost<K: Known>(costing: &CostRule, known: &K) -> Result<Bound, NodeFault>
    ensures { AnswersCost costing.now (K.table known.now) NeverCost result }
{
    match known.time(costing.rule) {
        Some(time) => if is_zero(time) {
            Ok(Bound::Const(0))
        } else {
            Err(NodeFault::Refused(Reason::Zero))
        },
        None => Err(NodeFault::Refused(Reason::MissingTime { rule: costing.rule })),
    }
}
