//! Costs that side bounds certify.

ghost use Rattle.std.specs.Prelude.{length};
ghost use Rattle.cert_context.specs.Needed.{HasTime};
ghost use Rattle.check_sizes.specs.SideBounds.{HasSideBoundNumbers};
ghost use Rattle.check_sizes.specs.CostAnswers.{AnswersCost, IsCostRule, cost_setting};
ghost use Rattle.cert_types.specs.Views.{side_bound_of};
ghost use Rattle.cert_types.specs.cert_rules.AcceptsCosts.{AcceptsCostSideBound};
ghost use Rattle.cert_types.specs.cert_rules.Nodes.{SideBoundCost};

use crate::cost_rows::CostRule;
use crate::side_bounds::{Side, accepts_side_bound};
use bound_expr::Bound;
use bound_table::RewriteResult;
use cert_context::{NodeFault, first_missing, has_time};
use cert_types::{Known, Reason, SideBound};
use cost_nodes::{PreparedCost, composed_cost, needed_sizes};
use std::alloc::Global;

/// The cost that a side bound of the cost composes.
///
/// # Errors
///
/// `Refused` with the first reason why the cost isn't certified; `Memory` where an allocation fails.
pub(crate) fn side_bound_cost<K: Known>(
    alloc: Global,
    costing: &CostRule,
    side_bound: &SideBound,
    known: &K,
) -> Result<Bound, NodeFault>
    requires rule { IsCostRule costing.now }
    requires numbers { HasSideBoundNumbers (length costing.now.prepared.now.rows.items) costing.now.prepared.now.left
        (side_bound_of side_bound.now) }
    ensures { AnswersCost costing.now (K.table known.now) (SideBoundCost (side_bound_of side_bound.now)) result }
{
    let accepted = accepts_side_bound(alloc, costing.prepared, 1, Side::Up, side_bound)?;
    if !accepted {
        return Err(NodeFault::Refused(Reason::SideBoundUp {
            rule: costing.rule,
            place: 0,
        }));
    }
    if !has_time(known, costing.rule) {
        return Err(NodeFault::Refused(Reason::MissingTime { rule: costing.rule }));
    }
    sized_cost(alloc, costing, side_bound, known)
}

// The cost that an accepted side bound composes for a rule with a time. Each place that the side bound reads needs a
// size.
fn sized_cost<K: Known>(
    alloc: Global,
    costing: &CostRule,
    side_bound: &SideBound,
    known: &K,
) -> Result<Bound, NodeFault>
    requires rule { IsCostRule costing.now }
    requires numbers { HasSideBoundNumbers (length costing.now.prepared.now.rows.items) costing.now.prepared.now.left
        (side_bound_of side_bound.now) }
    requires up { AcceptsCostSideBound (cost_setting costing.now) costing.now.rule (side_bound_of side_bound.now) }
    requires time { HasTime (K.table known.now) costing.now.rule }
    ensures { AnswersCost costing.now (K.table known.now) (SideBoundCost (side_bound_of side_bound.now)) result }
{
    let cost = PreparedCost {
        graph: &costing.context.graph,
        rule: costing.rule,
        rows: costing.prepared,
    };
    let needed = needed_sizes(alloc, &cost, side_bound)?;
    if let Some(result_variable) = first_missing(known, &needed) {
        return Err(NodeFault::Refused(Reason::MissingSize {
            rule: result_variable.rule,
            place: result_variable.place,
        }));
    }
    let composed = composed_cost(alloc, &cost, side_bound, known)?;
    match composed {
        RewriteResult::Rewritten(bound) => Ok(bound),
        RewriteResult::Large { nodes } => Err(NodeFault::Refused(Reason::Large { nodes })),
    }
}
