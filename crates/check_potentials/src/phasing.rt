//! Nodes of two phases.

ghost use Rattle.std.specs.Prelude.{◌≡◌, ◌≤◌, map, option_map, IfOk};
ghost use Rattle.poly_terms.specs.Views.{monomials_of};
ghost use Rattle.signed_bounds.specs.Bounds.{Constant, PositivePart, SumOf, ProductOf};
ghost use Rattle.signed_bounds.specs.Bounds.{NoParts, Part as plain_part, Root as plain_root};
ghost use Rattle.signed_bounds.specs.Views.{signed_of};
ghost use Rattle.potential_nodes.specs.Checks.{first_refused};
ghost use Rattle.potential_nodes.specs.Facts.{same_variables};
ghost use Rattle.potential_nodes.specs.Tables.{symbol_of};
ghost use Rattle.potential_nodes.specs.PhaseNodes as plain;
ghost use Rattle.potential_nodes.specs.PhaseNodes.{phase_check, phases_checks, phases_signed, less_number};
ghost use Rattle.potential_nodes.specs.PhaseNodes.{phases_root as root_of_phases};
ghost use Rattle.potential_types.specs.Views.{fact_view, function_of, phase_move_of, phases_node_of, reason_of};
ghost use Rattle.check_potentials.specs.Grounds.{IsPrepared, plain_ground};
ghost use Rattle.check_potentials.specs.Never.{IsKnown};
ghost use Rattle.check_potentials.specs.Phases.{ArePhasesOf};
ghost use Rattle.check_potentials.specs.Refusals.{all_hold};
ghost use Rattle.check_potentials.specs.Stages.{missing_moves, phase_shapes, phase_moves};

use crate::falls::unshown_floor;
use crate::functions::{amount_of, form_at};
use crate::ground::Ground;
use crate::known::Known;
use crate::moves::{is_move_shown, missing_move};
use crate::phases::{Phases, first_move, phases_of, second_move};
use crate::rows::number_bound;
use crate::shapes::{has_table_shape, have_payment_shapes, payers_ascend};
use poly_terms::{Memory, Monomial, Poly};
use potential_types::{PhaseMove, PhasesNode, Reason, SymbolFunction, copied_monomials};
use signed_bounds::Signed;
use signed_within::is_within;
use std::alloc::Global;

/// The first reason why a node of two phases, with a stated bound, isn't accepted given these facts; `None` if it
/// is accepted.
///
/// # Errors
///
/// `Memory` where an allocation fails.
pub(crate) fn phases_refusal(
    alloc: Global,
    ground: Ground,
    known: Known,
    node: &PhasesNode,
    bound: &Signed,
) -> Result<Option<Reason>, Memory>
    requires prepared { IsPrepared ground }
    requires known { IsKnown ground known }
    ensures { IfOk result (λ o. option_map reason_of o ≡ first_refused (phases_checks (plain_ground ground.entry)
        (map fact_view known.entry.facts.now) (phases_node_of node.now) (signed_of bound.now))) }
{
    let tables = phases_of(alloc, ground, node)?;
    let is_right = have_phase_shapes(ground, node, &tables);
    if !is_right {
        return Ok(Some(Reason::BadShape));
    }
    let missing = missing_phase_move(ground, known, &tables);
    if let Some(reason) = missing {
        return Ok(Some(reason));
    }
    moves_refusal(alloc, ground, node, &tables, bound)
}

// The first rule that leads to a symbol with functions, has no move and may occur.
fn missing_phase_move(ground: Ground, known: Known, tables: &Phases) -> Option<Reason>
    requires prepared { IsPrepared ground }
    requires known { IsKnown ground known }
    ensures { (n : plain.PhasesNode) → ArePhasesOf (plain_ground ground.entry) n tables.now → option_map reason_of result
        ≡ first_refused (missing_moves (plain_ground ground.entry) (map fact_view known.entry.facts.now) n) }
{
    match missing_move(ground, known, &tables.first) {
        Some(reason) => Some(reason),
        None => missing_move(ground, known, &tables.second),
    }
}

// Whether the same symbols, in order, have functions.
fn same_symbols(firsts: &[SymbolFunction], seconds: &[SymbolFunction]) -> bool
    ensures { result
        ≡ same_variables (map symbol_of (map function_of firsts.now)) (map symbol_of (map function_of seconds.now)) }
{
    let mut left = seconds;
    for first in firsts {
        let Some((second, rest)) = left.split_first() else {
            return false;
        };
        if first.symbol != second.symbol {
            return false;
        }
        left = rest;
    }
    left.is_empty()
}

// Whether a node has its shape.
#[tactic(auto, using(crate::proofs::RefusalLaws::hold_append))]
fn have_phase_shapes(ground: Ground, node: &PhasesNode, tables: &Phases) -> bool
    requires ground { IsPrepared ground }
    requires tables { ArePhasesOf (plain_ground ground) (phases_node_of node.now) tables.now }
    ensures { result ≡ all_hold (phase_shapes (plain_ground ground.entry) (phases_node_of node.now)) }
{
    has_table_shape(ground, &tables.first)
        && (has_table_shape(ground, &tables.second)
            && (same_symbols(&node.firsts, &node.seconds)
                && (payers_ascend(&tables.payments)
                    && have_payment_shapes(ground, &tables.first, &tables.payments))))
}

// Whether the certificates of a move show that both functions go on in phases.
fn is_phase_shown(
    alloc: Global,
    ground: Ground,
    tables: &Phases,
    step: &PhaseMove,
) -> Result<bool, Memory>
    requires { IsPrepared ground }
    ensures { IfOk result (λ r. (n : plain.PhasesNode) → ArePhasesOf (plain_ground ground.entry) n tables.now
        → r ≡ (phase_check (plain_ground ground.entry) n (phase_move_of step.now)).holds) }
{
    let amount = amount_of(&tables.payments, step.rule);
    let first = first_move(alloc, step)?;
    let is_shown = is_move_shown(alloc, ground, &tables.first, &first, amount)?;
    if !is_shown {
        return Ok(false);
    }
    let second = second_move(alloc, ground, &tables.first, &tables.payments, step)?;
    is_move_shown(alloc, ground, &tables.second, &second, amount)
}

// The first move that its certificates don't show.
fn unshown_phase(
    alloc: Global,
    ground: Ground,
    tables: &Phases,
    steps: &[PhaseMove],
) -> Result<Option<Reason>, Memory>
    requires { IsPrepared ground }
    ensures { IfOk result (λ o. (n : plain.PhasesNode) → ArePhasesOf (plain_ground ground.entry) n tables.now
        → option_map reason_of o
        ≡ first_refused (map (phase_check (plain_ground ground.entry) n) (map phase_move_of steps.now))) }
{
    for step in steps {
        let is_shown = is_phase_shown(alloc, ground, tables, step)?;
        if !is_shown {
            return Ok(Some(Reason::BadMove(step.rule)));
        }
    }
    Ok(None)
}

// The first reason why a node isn't accepted, among the checks after its shape and its missing moves.
fn moves_refusal(
    alloc: Global,
    ground: Ground,
    node: &PhasesNode,
    tables: &Phases,
    bound: &Signed,
) -> Result<Option<Reason>, Memory>
    requires ground { IsPrepared ground }
    requires tables { ArePhasesOf (plain_ground ground) (phases_node_of node.now) tables.now }
    requires den { 1 ≤ node.now.den }
    ensures { IfOk result (λ o. option_map reason_of o ≡ first_refused
        (phase_moves (plain_ground ground.entry) (phases_node_of node.now) (signed_of bound.now))) }
{
    let unshown = unshown_phase(alloc, ground, tables, &node.moves)?;
    if let Some(reason) = unshown {
        return Ok(Some(reason));
    }
    let floor = unshown_floor(alloc, ground, &tables.second, &tables.payments)?;
    if let Some(reason) = floor {
        return Ok(Some(reason));
    }
    let composed = phases_bound(alloc, ground, tables, node.den)?;
    let is_high = is_within(alloc, u128::from(node.den), &composed, bound)?;
    if !is_high {
        return Ok(Some(Reason::LowBound));
    }
    Ok(None)
}

// Monomials less a number.
fn less(alloc: Global, monomials: &[Monomial], number: u64) -> Result<Vec<Monomial>, Memory>
    ensures { IfOk result (λ ms. monomials_of ms.items ≡ less_number (monomials_of monomials.now) number) }
{
    let mut terms = Vec::new(alloc);
    terms.push(Monomial {
        coef: -i128::from(number),
        vars: Vec::new(alloc),
    })?;
    let mut others = copied_monomials(alloc, monomials)?;
    terms.append(&mut others)?;
    Ok(terms)
}

// The positive part of a sum of monomials.
fn part_of(terms: Vec<Monomial>) -> Signed
    ensures { signed_of result ≡ PositivePart (monomials_of terms.items) }
{
    Signed::Part(Poly { terms })
}

// A product of a number and a bound.
fn times(alloc: Global, number: u128, bound: Signed) -> Result<Signed, Memory>
    ensures { IfOk result
        (λ b. signed_of b ≡ ProductOf (plain_part (Constant number) (plain_part (signed_of bound) NoParts))) }
{
    let mut factors = Vec::new(alloc);
    factors.push(Signed::Const(number))?;
    factors.push(bound)?;
    Ok(Signed::Prod(factors))
}

// The root of a bound.
fn root_of(alloc: Global, radicand: Signed) -> Result<Signed, Memory>
    ensures { IfOk result (λ b. signed_of b ≡ plain_root (signed_of radicand)) }
{
    Ok(Signed::Root(Box::new(alloc, radicand)?))
}

// The root of twice the denominator times the second function at the start, less the denominator.
fn phases_root(alloc: Global, ground: Ground, tables: &Phases, den: u64) -> Result<Signed, Memory>
    ensures { IfOk result (λ b. (n : plain.PhasesNode) → ArePhasesOf (plain_ground ground.entry) n tables.now
        → n.den ≡ den → signed_of b ≡ root_of_phases (plain_ground ground.entry) n) }
{
    let second = form_at(&tables.second, Some(ground.program.start));
    let terms = less(alloc, second, den)?;
    let positive = part_of(terms);
    let product = times(alloc, 2 * u128::from(den), positive)?;
    root_of(alloc, product)
}

// Three bounds together.
fn sum_of(alloc: Global, first: Signed, second: Signed, third: Signed) -> Result<Signed, Memory>
    ensures { IfOk result (λ b. signed_of b ≡ SumOf (plain_part (signed_of first)
        (plain_part (signed_of second) (plain_part (signed_of third) NoParts)))) }
{
    let mut parts = Vec::new(alloc);
    parts.push(first)?;
    parts.push(second)?;
    parts.push(third)?;
    Ok(Signed::Sum(parts))
}

// The bound of a node, times the denominator.
fn phases_bound(alloc: Global, ground: Ground, tables: &Phases, den: u64) -> Result<Signed, Memory>
    ensures { IfOk result (λ b. (n : plain.PhasesNode) → ArePhasesOf (plain_ground ground.entry) n tables.now
        → n.den ≡ den → signed_of b ≡ phases_signed (plain_ground ground.entry) n) }
{
    let first = form_at(&tables.first, Some(ground.program.start));
    let terms = copied_monomials(alloc, first)?;
    let positive = part_of(terms);
    let twice = times(alloc, 2, positive)?;
    let root = phases_root(alloc, ground, tables, den)?;
    let once = number_bound(den);
    sum_of(alloc, once, twice, root)
}
