//! Potentials that cover a polynomial of a rule.

ghost use Rattle.std.specs.Prelude.{◌≡◌, ◌≤◌, [], ◌∷◌, map, option_map, filter, IfOk};
ghost use Rattle.signed_bounds.specs.Views.{signed_of};
ghost use Rattle.potential_nodes.specs.Checks.{first_refused};
ghost use Rattle.potential_nodes.specs.Peaks.{peak_checks, covered_shape, peak_parts, sets_anew};
ghost use Rattle.potential_types.specs.Views.{fact_view, move_of, peak_of, reason_of, table_of};
ghost use Rattle.check_potentials.specs.Grounds.{IsPrepared, plain_ground};
ghost use Rattle.check_potentials.specs.Never.{IsKnown};
ghost use Rattle.check_potentials.specs.Refusals.{all_hold};
ghost use Rattle.check_potentials.specs.Stages.{peak_shape, peak_floor, peak_bounds, peak_levels};
ghost use Rattle.check_potentials.specs.Stages.{is_level_within as is_within_with_gains};
ghost use Rattle.check_potentials.specs.Stages.{are_levels_within as are_within_with_gains};
ghost use Rattle.check_potentials.specs.Stages.{level_bound as bound_of_level};

use crate::certificates::shows;
use crate::functions::has_function;
use crate::gains::{peak_cited, start_bound, sum_of_parts, unbounded_gain, with_kept_gains};
use crate::ground::{Ground, rows_of, source_of, variables_of};
use crate::known::Known;
use crate::moves::{floor_goal, missing_move, unshown_move};
use crate::shapes::{cite_gains, has_table_shape};
use poly_terms::Memory;
use potential_types::{
    Move, PeakNode, PotentialTable, Reason, SignedFact, copied_bound, reads_below,
};
use signed_bounds::Signed;
use signed_within::is_within;
use std::alloc::Global;

/// The first reason why a potential that covers a polynomial, with a stated bound, isn't accepted given these
/// facts; `None` if it is accepted.
///
/// # Errors
///
/// `Memory` where an allocation fails.
pub(crate) fn peak_refusal(
    alloc: Global,
    ground: Ground,
    known: Known,
    node: &PeakNode,
    bound: &Signed,
) -> Result<Option<Reason>, Memory>
    requires prepared { IsPrepared ground }
    requires known { IsKnown ground known }
    ensures { IfOk result (λ o. option_map reason_of o ≡ first_refused (peak_checks (plain_ground ground.entry)
        (map fact_view known.entry.facts.now) (peak_of node.now) (signed_of bound.now))) }
{
    let is_right = has_peak_shape(ground, known.facts, node);
    if !is_right {
        return Ok(Some(Reason::BadShape));
    }
    if let Some(reason) = missing_move(ground, known, &node.potential) {
        return Ok(Some(reason));
    }
    let unshown = unshown_move(alloc, ground, &node.potential, &node.potential.moves, &[])?;
    if let Some(reason) = unshown {
        return Ok(Some(reason));
    }
    floor_refusal(alloc, ground, known.facts, node, bound)
}

// Whether the rule leaves a symbol with a function, and the polynomial reads its variables alone.
fn has_covered_shape(ground: Ground, node: &PeakNode) -> bool
    requires { IsPrepared ground }
    ensures { result ≡ (covered_shape (plain_ground ground.entry) (peak_of node.now)).holds }
{
    has_function(&node.potential, source_of(ground, node.rule))
        && reads_below(variables_of(ground, node.rule), &node.form)
}

// Whether a node has its shape.
#[tactic(auto, using(crate::proofs::RefusalLaws::hold_append))]
fn has_peak_shape(ground: Ground, facts: &[SignedFact], node: &PeakNode) -> bool
    requires { IsPrepared ground }
    ensures { result
        ≡ all_hold (peak_shape (plain_ground ground.entry) (map fact_view facts.now) (peak_of node.now)) }
{
    has_table_shape(ground, &node.potential)
        && (has_covered_shape(ground, node) && cite_gains(facts, &node.potential.moves))
}

// Whether the certificate of a node shows that the function before a step of the rule is high enough.
fn is_covered(alloc: Global, ground: Ground, node: &PeakNode) -> Result<bool, Memory>
    requires { IsPrepared ground }
    ensures { IfOk result (λ r. r ≡ (peak_floor (plain_ground ground.entry) (peak_of node.now)).holds) }
{
    let goal = floor_goal(alloc, ground, &node.potential, node.rule, &node.form.terms)?;
    shows(alloc, rows_of(ground, node.rule), &node.floor, goal)
}

// The first reason why a node isn't accepted, among the checks after its moves.
fn floor_refusal(
    alloc: Global,
    ground: Ground,
    facts: &[SignedFact],
    node: &PeakNode,
    bound: &Signed,
) -> Result<Option<Reason>, Memory>
    requires ground { IsPrepared ground }
    requires den { 1 ≤ node.now.potential.den }
    ensures { IfOk result (λ o. option_map reason_of o ≡ first_refused
        (peak_levels (plain_ground ground.entry) (map fact_view facts.now) (peak_of node.now) (signed_of bound.now))) }
{
    let is_shown = is_covered(alloc, ground, node)?;
    if !is_shown {
        return Ok(Some(Reason::BadFloor(node.rule)));
    }
    levels_refusal(alloc, ground, facts, &node.potential, bound)
}

// The first reason why a node isn't accepted, among the checks after its floor.
fn levels_refusal(
    alloc: Global,
    ground: Ground,
    facts: &[SignedFact],
    table: &PotentialTable,
    bound: &Signed,
) -> Result<Option<Reason>, Memory>
    requires { 1 ≤ table.now.den }
    ensures { IfOk result (λ o. option_map reason_of o ≡ first_refused
        (peak_bounds (plain_ground ground.entry) (map fact_view facts.now) (table_of table.now) (signed_of bound.now))) }
{
    let gain = unbounded_gain(alloc, &table.moves)?;
    if let Some(reason) = gain {
        return Ok(Some(reason));
    }
    let level = start_bound(alloc, ground, table)?;
    let is_high = is_level_within(alloc, facts, table, level, bound)?;
    if !is_high {
        return Ok(Some(Reason::LowBound));
    }
    let are_high = are_resets_within(alloc, facts, table, &table.moves, bound)?;
    if !are_high {
        return Ok(Some(Reason::LowBound));
    }
    Ok(None)
}

// A level and the bounds of the gains above it together.
fn level_bound(
    alloc: Global,
    facts: &[SignedFact],
    level: Signed,
    table: &PotentialTable,
) -> Result<Signed, Memory>
    ensures { IfOk result (λ b. signed_of b
        ≡ bound_of_level (map fact_view facts.now) (table_of table.now) (signed_of level)) }
{
    let parts = with_kept_gains(alloc, facts, level, &table.moves)?;
    Ok(sum_of_parts(parts))
}

// Whether a bound is high enough for a level and the gains above it.
fn is_level_within(
    alloc: Global,
    facts: &[SignedFact],
    table: &PotentialTable,
    level: Signed,
    bound: &Signed,
) -> Result<bool, Memory>
    requires { 1 ≤ table.now.den }
    ensures { IfOk result (λ r. r ≡ is_within_with_gains (map fact_view facts.now) (table_of table.now)
        (signed_of bound.now) (signed_of level)) }
{
    let composed = level_bound(alloc, facts, level, table)?;
    is_within(alloc, u128::from(table.den), &composed, bound)
}

// Whether a bound is high enough for the level to which a move resets the function, if it does.
fn is_reset_within(
    alloc: Global,
    facts: &[SignedFact],
    table: &PotentialTable,
    step: &Move,
    bound: &Signed,
) -> Result<bool, Memory>
    requires { 1 ≤ table.now.den }
    ensures { IfOk result (λ r. r ≡ are_within_with_gains (map fact_view facts.now) (table_of table.now)
        (signed_of bound.now) (peak_parts (map fact_view facts.now) (filter sets_anew (move_of step.now ∷ [])))) }
{
    if step.keeps {
        return Ok(true);
    }
    match peak_cited(facts, step) {
        Some(peak) => {
            let level = copied_bound(alloc, peak)?;
            is_level_within(alloc, facts, table, level, bound)
        }
        None => Ok(true),
    }
}

// Whether a bound is high enough for each level to which the function is reset.
fn are_resets_within(
    alloc: Global,
    facts: &[SignedFact],
    table: &PotentialTable,
    moves: &[Move],
    bound: &Signed,
) -> Result<bool, Memory>
    requires { 1 ≤ table.now.den }
    ensures { IfOk result (λ r. r ≡ are_within_with_gains (map fact_view facts.now) (table_of table.now)
        (signed_of bound.now) (peak_parts (map fact_view facts.now) (filter sets_anew (map move_of moves.now)))) }
{
    for step in moves {
        let is_high = is_reset_within(alloc, facts, table, step, bound)?;
        if !is_high {
            return Ok(false);
        }
    }
    Ok(true)
}
