//! Potentials that pay for charges.

ghost use Rattle.std.specs.Prelude.{◌≡◌, ◌≤◌, map, option_map, IfOk};
ghost use Rattle.signed_bounds.specs.Views.{signed_of};
ghost use Rattle.potential_nodes.specs.Checks.{first_refused};
ghost use Rattle.potential_nodes.specs.Falls.{fall_checks, floor_check, amount_check, fall_bound as bound_of_fall};
ghost use Rattle.potential_types.specs.Views.{fact_view, fall_of, payment_of, reason_of, table_of};
ghost use Rattle.check_potentials.specs.Grounds.{IsPrepared, plain_ground};
ghost use Rattle.check_potentials.specs.Never.{IsKnown};
ghost use Rattle.check_potentials.specs.Refusals.{all_hold};
ghost use Rattle.check_potentials.specs.Stages.{fall_shape, fall_payments, fall_bounds};

use crate::certificates::shows;
use crate::expressions::form_expr;
use crate::gains::{start_bound, sum_of_parts, unbounded_gain, with_gains};
use crate::ground::{Ground, rows_of};
use crate::known::Known;
use crate::moves::{floor_goal, missing_move, unshown_move};
use crate::shapes::{cite_sums, has_table_shape, have_payment_shapes, payers_ascend};
use poly_terms::Memory;
use potential_types::{FallNode, Payment, PotentialTable, Reason, SignedFact};
use signed_bounds::Signed;
use signed_within::is_within;
use std::alloc::Global;

/// The first reason why a potential that pays, with a stated bound, isn't accepted given these facts; `None`
/// if it is accepted.
///
/// # Errors
///
/// `Memory` where an allocation fails.
pub(crate) fn fall_refusal(
    alloc: Global,
    ground: Ground,
    known: Known,
    node: &FallNode,
    bound: &Signed,
) -> Result<Option<Reason>, Memory>
    requires prepared { IsPrepared ground }
    requires known { IsKnown ground known }
    ensures { IfOk result (λ o. option_map reason_of o ≡ first_refused (fall_checks (plain_ground ground.entry)
        (map fact_view known.entry.facts.now) (fall_of node.now) (signed_of bound.now))) }
{
    let is_right = has_fall_shape(ground, known.facts, node);
    if !is_right {
        return Ok(Some(Reason::BadShape));
    }
    if let Some(reason) = missing_move(ground, known, &node.potential) {
        return Ok(Some(reason));
    }
    let unshown = unshown_move(
        alloc,
        ground,
        &node.potential,
        &node.potential.moves,
        &node.payments,
    )?;
    if let Some(reason) = unshown {
        return Ok(Some(reason));
    }
    payments_refusal(alloc, ground, known.facts, node, bound)
}

// Whether a node has its shape.
#[tactic(auto, using(crate::proofs::RefusalLaws::hold_append))]
fn has_fall_shape(ground: Ground, facts: &[SignedFact], node: &FallNode) -> bool
    requires { IsPrepared ground }
    ensures { result
        ≡ all_hold (fall_shape (plain_ground ground.entry) (map fact_view facts.now) (fall_of node.now)) }
{
    has_table_shape(ground, &node.potential)
        && (payers_ascend(&node.payments)
            && (have_payment_shapes(ground, &node.potential, &node.payments)
                && cite_sums(facts, &node.potential.moves)))
}

// The first reason why a node isn't accepted, among the checks after its moves.
fn payments_refusal(
    alloc: Global,
    ground: Ground,
    facts: &[SignedFact],
    node: &FallNode,
    bound: &Signed,
) -> Result<Option<Reason>, Memory>
    requires ground { IsPrepared ground }
    requires den { 1 ≤ node.now.potential.den }
    ensures { IfOk result (λ o. option_map reason_of o ≡ first_refused
        (fall_payments (plain_ground ground.entry) (map fact_view facts.now) (fall_of node.now) (signed_of bound.now))) }
{
    let floor = unshown_floor(alloc, ground, &node.potential, &node.payments)?;
    if let Some(reason) = floor {
        return Ok(Some(reason));
    }
    let amount = unshown_amount(alloc, ground, &node.payments)?;
    if let Some(reason) = amount {
        return Ok(Some(reason));
    }
    bounds_refusal(alloc, ground, facts, &node.potential, bound)
}

// The first reason why a node isn't accepted, among the checks after its payments.
fn bounds_refusal(
    alloc: Global,
    ground: Ground,
    facts: &[SignedFact],
    table: &PotentialTable,
    bound: &Signed,
) -> Result<Option<Reason>, Memory>
    requires { 1 ≤ table.now.den }
    ensures { IfOk result (λ o. option_map reason_of o ≡ first_refused
        (fall_bounds (plain_ground ground.entry) (map fact_view facts.now) (table_of table.now) (signed_of bound.now))) }
{
    let gain = unbounded_gain(alloc, &table.moves)?;
    if let Some(reason) = gain {
        return Ok(Some(reason));
    }
    let composed = fall_bound(alloc, ground, facts, table)?;
    let is_high = is_within(alloc, u128::from(table.den), &composed, bound)?;
    if !is_high {
        return Ok(Some(Reason::LowBound));
    }
    Ok(None)
}

// The level at the start and the bounds of the gains together.
fn fall_bound(
    alloc: Global,
    ground: Ground,
    facts: &[SignedFact],
    table: &PotentialTable,
) -> Result<Signed, Memory>
    ensures { IfOk result (λ b. signed_of b
        ≡ bound_of_fall (plain_ground ground.entry) (map fact_view facts.now) (table_of table.now)) }
{
    let level = start_bound(alloc, ground, table)?;
    let parts = with_gains(alloc, facts, level, &table.moves)?;
    Ok(sum_of_parts(parts))
}

// Whether the certificate of a payment shows that the function before the step is high enough.
fn is_floor_shown(
    alloc: Global,
    ground: Ground,
    table: &PotentialTable,
    payment: &Payment,
) -> Result<bool, Memory>
    requires { IsPrepared ground }
    ensures { IfOk result (λ r. r
        ≡ (floor_check (plain_ground ground.entry) (table_of table.now) (payment_of payment.now)).holds) }
{
    let goal = floor_goal(alloc, ground, table, payment.rule, &payment.amount.terms)?;
    shows(alloc, rows_of(ground, payment.rule), &payment.floor, goal)
}

/// The first payment whose certificate doesn't show that the function before the step is high enough.
///
/// # Errors
///
/// `Memory` where an allocation fails.
pub(crate) fn unshown_floor(
    alloc: Global,
    ground: Ground,
    table: &PotentialTable,
    payments: &[Payment],
) -> Result<Option<Reason>, Memory>
    requires { IsPrepared ground }
    ensures { IfOk result (λ o. option_map reason_of o ≡ first_refused
        (map (floor_check (plain_ground ground.entry) (table_of table.now)) (map payment_of payments.now))) }
{
    for payment in payments {
        let is_shown = is_floor_shown(alloc, ground, table, payment)?;
        if !is_shown {
            return Ok(Some(Reason::BadFloor(payment.rule)));
        }
    }
    Ok(None)
}

// Whether the certificate of a payment shows that its amount isn't negative.
fn is_amount_shown(alloc: Global, ground: Ground, payment: &Payment) -> Result<bool, Memory>
    requires { IsPrepared ground }
    ensures { IfOk result (λ r. r ≡ (amount_check (plain_ground ground.entry) (payment_of payment.now)).holds) }
{
    let goal = form_expr(alloc, &payment.amount.terms)?;
    shows(
        alloc,
        rows_of(ground, payment.rule),
        &payment.positive,
        goal,
    )
}

// The first payment whose certificate doesn't show that its amount isn't negative.
fn unshown_amount(
    alloc: Global,
    ground: Ground,
    payments: &[Payment],
) -> Result<Option<Reason>, Memory>
    requires { IsPrepared ground }
    ensures { IfOk result (λ o. option_map reason_of o
        ≡ first_refused (map (amount_check (plain_ground ground.entry)) (map payment_of payments.now))) }
{
    for payment in payments {
        let is_shown = is_amount_shown(alloc, ground, payment)?;
        if !is_shown {
            return Ok(Some(Reason::BadAmount(payment.rule)));
        }
    }
    Ok(None)
}
