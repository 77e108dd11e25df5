//! Checks that a ranking function decreases as required by the rules of its set, and that it has a floor.

ghost use Rattle.std.specs.Prelude.{◌≡◌, ◌↔◌, ◌<◌, length, pos, IfOk, IsTrue, MatchOption, slice_index_or};
ghost use Rattle.std.specs.List.{AllByRecursion};
ghost use Rattle.poly_terms.specs.linear_forms.Certificates.{Implies};
ghost use Rattle.poly_terms.specs.linear_forms.Losses.{loss};
ghost use Rattle.cert_context.specs.CheckContexts.{IsCheckContext, program, setting};
ghost use Rattle.gap_checks.specs.GapTests.{IsFirstFailing};
ghost use Rattle.cert_types.specs.Views.{rank_of};
ghost use Rattle.cert_types.specs.cert_rules.AcceptsPlain.{IsRule};
ghost use Rattle.cert_types.specs.cert_rules.AcceptsRank.{HasFloor, HasRankShape, Loses, at_source, at_target};
ghost use Rattle.cert_types.specs.cert_rules.AcceptsRank.{least_loss};
ghost use Rattle.cert_types.specs.cert_rules.Limits.{AreInLimit, IsInLimit};

use crate::forms::form_at;
use crate::goals::{floor_row, loss_row};
use cert_context::{CheckContext, prepared_rule};
use cert_types::{RankNode, source_of, target_of};
use farkas_cert::implies;
use model::Memory;
use std::alloc::Global;

// The least permitted decrease by a rule.
fn least_of(node: &RankNode, rule: u32) -> u64
    requires { IsInLimit node.now.den }
    ensures least { pos result ≡ least_loss (rank_of node.now) rule }
    ensures limit { IsInLimit result }
{
    if rule == node.rule { node.den } else { 0 }
}

// Whether the function decreases as required by a rule, as these multipliers certify.
fn is_losing(
    alloc: Global,
    context: &CheckContext,
    node: &RankNode,
    rule: u32,
    moves: &[u64],
) -> Result<bool, Memory>
    requires context { IsCheckContext context.now }
    requires shape { HasRankShape (setting context.now) (rank_of node.now) }
    requires rule { IsRule (program context.now) rule }
    requires limit { AreInLimit moves.now }
    ensures { IfOk result (λ is_losing. IsTrue is_losing ↔ Implies ((setting context.now).rows rule) moves.now
        (loss (at_source (program context.now) (rank_of node.now) rule)
        (at_target (program context.now) (rank_of node.now) rule)
        ((setting context.now).new_values rule) (least_loss (rank_of node.now) rule))) }
{
    let rows = prepared_rule(context, rule);
    let before = form_at(&node.forms, source_of(context.program, rule));
    let after = form_at(&node.forms, target_of(context.program, rule));
    let least = least_of(node, rule);
    let goal = loss_row(alloc, rows, before, after, least)?;
    Ok(implies(&rows.rows, moves, &goal))
}

// Whether the function decreases as required by the rule at a position of its set.
fn loses_at(
    alloc: Global,
    context: &CheckContext,
    node: &RankNode,
    position: usize,
) -> Result<bool, Memory>
    requires context { IsCheckContext context.now }
    requires shape { HasRankShape (setting context.now) (rank_of node.now) }
    requires within { position < length node.now.set.items }
    ensures { IfOk result (λ loses. IsTrue loses
        ↔ Loses (setting context.now) (rank_of node.now) (slice_index_or node.now.set.items position 0)) }
{
    is_losing(
        alloc,
        context,
        node,
        node.set[position],
        &node.moves[position],
    )
}

/// The first rule of the set by which the decrease isn't certified as required.
///
/// # Errors
///
/// `Memory` where an allocation fails.
pub(crate) fn first_rising(
    alloc: Global,
    context: &CheckContext,
    node: &RankNode,
) -> Result<Option<u32>, Memory>
    requires context { IsCheckContext context.now }
    requires shape { HasRankShape (setting context.now) (rank_of node.now) }
    ensures { IfOk result (λ rising. MatchOption rising
        (AllByRecursion (Loses (setting context.now) (rank_of node.now)) node.now.set.items)
        (λ t. IsFirstFailing (Loses (setting context.now) (rank_of node.now)) node.now.set.items t)) }
{
    for i in 0..node.set.len() {
        let loses = loses_at(alloc, context, node, i)?;
        if !loses {
            return Ok(Some(node.set[i]));
        }
    }
    Ok(None)
}

/// Whether the function is at least the denominator before the strict rule, as the floor's multipliers certify.
///
/// # Errors
///
/// `Memory` where an allocation fails.
pub(crate) fn has_floor(
    alloc: Global,
    context: &CheckContext,
    node: &RankNode,
) -> Result<bool, Memory>
    requires context { IsCheckContext context.now }
    requires shape { HasRankShape (setting context.now) (rank_of node.now) }
    ensures { IfOk result (λ has_floor. IsTrue has_floor ↔ HasFloor (setting context.now) (rank_of node.now)) }
{
    let rows = prepared_rule(context, node.rule);
    let before = form_at(&node.forms, source_of(context.program, node.rule));
    let goal = floor_row(alloc, rows.unknowns as usize, before, node.den)?;
    Ok(implies(&rows.rows, &node.floor, &goal))
}
