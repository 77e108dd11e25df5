//! Checks nodes over the bounds of their premises, looked up by key.

ghost use Rattle.std.specs.Prelude.{◌∷◌, [], map, MatchResult};
ghost use Rattle.model.specs.Facts.{Cost, Size, Time};
ghost use Rattle.cert_context.specs.CheckContexts.{IsCheckContext, setting};
ghost use Rattle.cert_context.specs.NodeAnswers.{Refuses, States};
ghost use Rattle.cert_context.specs.Statements.{joined_by};
ghost use Rattle.check_sizes.specs.Costs.{cost_node};
ghost use Rattle.check_sizes.specs.SizeAnswers.{spread_member};
ghost use Rattle.cert_types.specs.Views.{member_of, rank_of};
ghost use Rattle.cert_types.specs.cert_rules.AcceptsCosts.{node_cost};
ghost use Rattle.cert_types.specs.cert_rules.AcceptsRank.{rank_time};
ghost use Rattle.cert_types.specs.cert_rules.AcceptsSizes.{cycle_facts as facts_of_loop, cycle_size, spread_size};
ghost use Rattle.cert_types.specs.cert_rules.Checks.{cost_checks, cycle_checks, rank_checks, spread_checks};
ghost use Rattle.cert_types.specs.cert_rules.Known.{table_of};

use cert_context::{CheckContext, NodeFault, PremiseFacts, StatedFacts, lookup_of};
use cert_types::{CostNode, CycleNode, Fact, RankNode, SpreadNode};
use check_ranks::rank_facts;
use check_sizes::{cost_facts, cycle_facts, spread_facts};
use std::alloc::Global;

/// The fact of a node with a ranking function, given the facts of its premises.
///
/// # Errors
///
/// `Refused` with the first reason why the node isn't accepted; `Memory` where an allocation fails.
pub(crate) fn ranked(
    alloc: Global,
    context: &CheckContext,
    kept: &StatedFacts,
    node: &RankNode,
    uses: &[PremiseFacts],
) -> Result<Vec<Fact>, NodeFault>
    requires { IsCheckContext context.now }
    ensures { MatchResult result
        (λ facts. States (rank_checks (setting context.now) (table_of (joined_by kept.now uses.now)) (rank_of node.now))
        (Time node.now.rule ((setting context.now).rewrite
        (rank_time (setting context.now) (rank_of node.now) (table_of (joined_by kept.now uses.now)))) ∷ []) facts)
        (λ fault. Refuses
        (rank_checks (setting context.now) (table_of (joined_by kept.now uses.now)) (rank_of node.now)) fault) }
{
    let known = lookup_of(alloc, kept, uses)?;
    rank_facts(alloc, context, node, &known)
}

/// The fact of a node on the size of a place that doesn't loop, given the facts of its premises.
///
/// # Errors
///
/// `Refused` with the first reason why the node isn't accepted; `Memory` where an allocation fails.
pub(crate) fn spread(
    alloc: Global,
    context: &CheckContext,
    kept: &StatedFacts,
    node: &SpreadNode,
    uses: &[PremiseFacts],
) -> Result<Vec<Fact>, NodeFault>
    requires { IsCheckContext context.now }
    ensures { MatchResult result
        (λ facts. States
        (spread_checks (setting context.now) (table_of (joined_by kept.now uses.now)) (spread_member node.now))
        (Size node.now.result_variable.rule node.now.result_variable.place ((setting context.now).rewrite
        (spread_size (setting context.now) (table_of (joined_by kept.now uses.now)) (spread_member node.now))) ∷ [])
        facts)
        (λ fault. Refuses
        (spread_checks (setting context.now) (table_of (joined_by kept.now uses.now)) (spread_member node.now)) fault) }
{
    let known = lookup_of(alloc, kept, uses)?;
    spread_facts(alloc, context, node, &known)
}

/// The facts of a node on the sizes of the members of a loop, given the facts of its premises.
///
/// # Errors
///
/// `Refused` with the first reason why the node isn't accepted; `Memory` where an allocation fails.
pub(crate) fn looped(
    alloc: Global,
    context: &CheckContext,
    kept: &StatedFacts,
    node: &CycleNode,
    uses: &[PremiseFacts],
) -> Result<Vec<Fact>, NodeFault>
    requires { IsCheckContext context.now }
    ensures { MatchResult result
        (λ facts. States
        (cycle_checks (setting context.now) (table_of (joined_by kept.now uses.now))
        (map member_of node.now.members.items))
        (facts_of_loop ((setting context.now).rewrite (cycle_size (setting context.now)
        (table_of (joined_by kept.now uses.now)) (map member_of node.now.members.items)))
        (map member_of node.now.members.items)) facts)
        (λ fault. Refuses (cycle_checks (setting context.now)
        (table_of (joined_by kept.now uses.now)) (map member_of node.now.members.items)) fault) }
{
    let known = lookup_of(alloc, kept, uses)?;
    cycle_facts(alloc, context, node, &known)
}

/// The fact of a node on the cost of a rule, given the facts of its premises.
///
/// # Errors
///
/// `Refused` with the first reason why the node isn't accepted; `Memory` where an allocation fails.
pub(crate) fn charged(
    alloc: Global,
    context: &CheckContext,
    kept: &StatedFacts,
    node: &CostNode,
    uses: &[PremiseFacts],
) -> Result<Vec<Fact>, NodeFault>
    requires { IsCheckContext context.now }
    ensures { MatchResult result
        (λ facts. States
        (cost_checks (setting context.now) (table_of (joined_by kept.now uses.now)) (cost_node node.now))
        (Cost node.now.rule (node_cost (setting context.now)
        (table_of (joined_by kept.now uses.now)) (cost_node node.now)) ∷ []) facts)
        (λ fault. Refuses
        (cost_checks (setting context.now) (table_of (joined_by kept.now uses.now)) (cost_node node.now)) fault) }
{
    let known = lookup_of(alloc, kept, uses)?;
    cost_facts(alloc, context, node, &known)
}
