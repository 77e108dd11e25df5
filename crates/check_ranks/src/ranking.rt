//! Checks nodes with ranking functions.

ghost use Rattle.std.specs.Prelude.{◌∷◌, [], MatchResult};
ghost use Rattle.model.specs.Facts.{Time};
ghost use Rattle.cert_context.specs.CheckContexts.{IsCheckContext, setting};
ghost use Rattle.cert_context.specs.NodeAnswers.{Refuses, States};
ghost use Rattle.cert_types.specs.Views.{rank_of};
ghost use Rattle.cert_types.specs.cert_rules.AcceptsRank.{HasRankShape, rank_time as rank_time_of};
ghost use Rattle.cert_types.specs.cert_rules.Checks.{rank_checks, behind_floor};

use crate::losing::{first_rising, has_floor};
use crate::rank_shape::has_rank_shape;
use crate::reading::needed_result_variables;
use bound_table::RewriteResult;
use cert_context::{CheckContext, NodeFault, first_missing, first_untimed, one};
use cert_types::{Fact, Known, RankNode, Reason, entries, rank_time};
use std::alloc::Global;

/// The fact of a node with a ranking function: the time of its rule.
///
/// # Errors
///
/// `Refused` with the first reason why the node isn't accepted; `Memory` where an allocation fails.
pub fn rank_facts<K: Known>(
    alloc: Global,
    context: &CheckContext,
    node: &RankNode,
    known: &K,
) -> Result<Vec<Fact>, NodeFault>
    requires { IsCheckContext context.now }
    ensures { MatchResult result
        (λ facts. States (rank_checks (setting context.now) (K.table known.now) (rank_of node.now))
        (Time node.now.rule ((setting context.now).rewrite
        (rank_time_of (setting context.now) (rank_of node.now) (K.table known.now))) ∷ []) facts)
        (λ fault. Refuses (rank_checks (setting context.now) (K.table known.now) (rank_of node.now)) fault) }
{
    let is_right = has_rank_shape(alloc, context, node)?;
    if !is_right {
        return Err(NodeFault::Refused(Reason::Shape));
    }
    if let Some(rule) = first_rising(alloc, context, node)? {
        return Err(NodeFault::Refused(Reason::Move { rule }));
    }
    let is_floored = has_floor(alloc, context, node)?;
    if !is_floored {
        return Err(NodeFault::Refused(Reason::Floor));
    }
    time_facts(alloc, context, node, known)
}

// The time that a node states whose function decreases as required. Each entry needs a time, and a size at each place
// that the function reads after it.
fn time_facts<K: Known>(
    alloc: Global,
    context: &CheckContext,
    node: &RankNode,
    known: &K,
) -> Result<Vec<Fact>, NodeFault>
    requires context { IsCheckContext context.now }
    requires shape { HasRankShape (setting context.now) (rank_of node.now) }
    ensures { MatchResult result
        (λ facts. States (behind_floor (setting context.now) (K.table known.now) (rank_of node.now))
        (Time node.now.rule ((setting context.now).rewrite
        (rank_time_of (setting context.now) (rank_of node.now) (K.table known.now))) ∷ []) facts)
        (λ fault. Refuses (behind_floor (setting context.now) (K.table known.now) (rank_of node.now)) fault) }
{
    let entering = entries(alloc, context.program, &node.set)?;
    if let Some(rule) = first_untimed(known, &entering) {
        return Err(NodeFault::Refused(Reason::MissingTime { rule }));
    }
    let needed = needed_result_variables(alloc, context, node, &entering)?;
    if let Some(result_variable) = first_missing(known, &needed) {
        return Err(NodeFault::Refused(Reason::MissingSize {
            rule: result_variable.rule,
            place: result_variable.place,
        }));
    }
    match rank_time(alloc, context.program, node, known)? {
        RewriteResult::Rewritten(bound) => {
            let fact = Fact::Time {
                rule: node.rule,
                bound,
            };
            Ok(one(alloc, fact)?)
        }
        RewriteResult::Large { nodes } => Err(NodeFault::Refused(Reason::Large { nodes })),
    }
}
