//! The gains of moves: whether each is bounded, and the bounds of all together.

ghost use Rattle.std.specs.Prelude.{◌≡◌, map, option_map, filter, IfOk, OnOk};
ghost use Rattle.signed_bounds.specs.Bounds.{Part, SignedParts, SumOf};
ghost use Rattle.signed_bounds.specs.Views.{signed_of, signeds_of, parts_of};
ghost use Rattle.potential_nodes.specs.Checks.{first_refused};
ghost use Rattle.potential_nodes.specs.Tables.{start_bound as bound_at_start};
ghost use Rattle.potential_nodes.specs.Falls.{gain_parts, with_bound, sum_cited as bound_of_sum};
ghost use Rattle.potential_nodes.specs.Peaks.{keeps_function, peak_cited as bound_of_peak};
ghost use Rattle.potential_types.specs.Views.{fact_view, move_of, reason_of, table_of};
ghost use Rattle.check_potentials.specs.Grounds.{plain_ground};
ghost use Rattle.check_potentials.specs.Parts.{in_front, kept_cited as bound_of_kept};
ghost use Rattle.check_potentials.specs.Stages.{gain_bounded};

use crate::expressions::form_expr;
use crate::functions::function_at;
use crate::ground::Ground;
use poly_terms::{Expr, Memory};
use potential_types::{
    Move, PotentialTable, Reason, SignedFact, copied_bound, copied_poly, peak_bound, sum_of_form,
};
use signed_bounds::Signed;
use signed_within::expands_to_squares;
use std::alloc::Global;

// Whether a gain is never over 0, or a fact is cited for it.
fn is_gain_bounded(alloc: Global, step: &Move) -> Result<bool, Memory>
    ensures { IfOk result (λ r. r ≡ (gain_bounded (move_of step.now)).holds) }
{
    if step.cited.is_some() {
        return Ok(true);
    }
    let gain = form_expr(alloc, &step.gain.terms)?;
    let negated = Expr::negation(alloc, gain)?;
    expands_to_squares(alloc, &negated)
}

/// The first move with a gain that may be over 0 and for which no fact is cited.
///
/// # Errors
///
/// `Memory` where an allocation fails.
pub(crate) fn unbounded_gain(alloc: Global, moves: &[Move]) -> Result<Option<Reason>, Memory>
    ensures { IfOk result (λ o. option_map reason_of o ≡ first_refused (map gain_bounded (map move_of moves.now))) }
{
    for step in moves {
        let is_bounded = is_gain_bounded(alloc, step)?;
        if !is_bounded {
            return Ok(Some(Reason::BadGain(step.rule)));
        }
    }
    Ok(None)
}

// The bound that a fact gives for the sum of a gain, if one is cited.
fn sum_cited<'f>(facts: &'f [SignedFact], step: &Move) -> Option<&'f Signed>
    ensures { option_map (λ b. signed_of b.now) result ≡ bound_of_sum (map fact_view facts.now) (move_of step.now) }
{
    match step.cited {
        None => None,
        Some(number) => sum_of_form(facts, step.rule, &step.gain, number),
    }
}

// The bound that a fact gives for the sum of the gain of a move that keeps the function, if one is cited; `None` for a
// move that resets it.
fn kept_cited<'f>(facts: &'f [SignedFact], step: &Move) -> Option<&'f Signed>
    ensures { option_map (λ b. signed_of b.now) result ≡ bound_of_kept (map fact_view facts.now) (move_of step.now) }
{
    if step.keeps {
        return sum_cited(facts, step);
    }
    None
}

/// The bound that a fact gives for the peak of a gain, if one is cited.
pub(crate) fn peak_cited<'f>(facts: &'f [SignedFact], step: &Move) -> Option<&'f Signed>
    ensures { option_map (λ b. signed_of b.now) result ≡ bound_of_peak (map fact_view facts.now) (move_of step.now) }
{
    match step.cited {
        None => None,
        Some(number) => peak_bound(facts, step.rule, &step.gain, number),
    }
}

// Appends a copy of a bound, if there is one.
fn push_bound(alloc: Global, parts: &mut Vec<Signed>, bound: Option<&Signed>) -> Result<(), Memory>
    ensures { OnOk result ((rest : SignedParts) → in_front (signeds_of parts.new.items) rest
        ≡ in_front (signeds_of parts.old.items) (with_bound (option_map (λ b. signed_of b.now) bound.entry) rest)) }
{
    match bound {
        None => Ok(()),
        Some(found) => {
            let copy = copied_bound(alloc, found)?;
            parts.push(copy)?;
            Ok(())
        }
    }
}

/// Bounds together.
pub(crate) fn sum_of_parts(parts: Vec<Signed>) -> Signed
    ensures { signed_of result ≡ SumOf (parts_of (signeds_of parts.items)) }
{
    Signed::Sum(parts)
}

/// A level, and after it the bounds of the sums of all gains.
///
/// # Errors
///
/// `Memory` where an allocation fails.
pub(crate) fn with_gains(
    alloc: Global,
    facts: &[SignedFact],
    level: Signed,
    moves: &[Move],
) -> Result<Vec<Signed>, Memory>
    ensures { IfOk result (λ parts. parts_of (signeds_of parts.items)
        ≡ Part (signed_of level) (gain_parts (map fact_view facts.now) (map move_of moves.now))) }
{
    let mut parts = Vec::new(alloc);
    parts.push(level)?;
    for step in moves {
        push_bound(alloc, &mut parts, sum_cited(facts, step))?;
    }
    Ok(parts)
}

/// A level, and after it the bounds of the sums of the gains of moves that keep the function.
///
/// # Errors
///
/// `Memory` where an allocation fails.
pub(crate) fn with_kept_gains(
    alloc: Global,
    facts: &[SignedFact],
    level: Signed,
    moves: &[Move],
) -> Result<Vec<Signed>, Memory>
    ensures { IfOk result (λ parts. parts_of (signeds_of parts.items)
        ≡ Part (signed_of level)
        (gain_parts (map fact_view facts.now) (filter keeps_function (map move_of moves.now)))) }
{
    let mut parts = Vec::new(alloc);
    parts.push(level)?;
    for step in moves {
        push_bound(alloc, &mut parts, kept_cited(facts, step))?;
    }
    Ok(parts)
}

/// The level at the start as a bound.
///
/// # Errors
///
/// `Memory` where an allocation fails.
pub(crate) fn start_bound(
    alloc: Global,
    ground: Ground,
    table: &PotentialTable,
) -> Result<Signed, Memory>
    ensures { IfOk result (λ b. signed_of b ≡ bound_at_start (plain_ground ground.entry) (table_of table.now)) }
{
    match function_at(&table.functions, ground.program.start) {
        Some(function) => Ok(Signed::Part(copied_poly(alloc, &function.form)?)),
        None => Ok(Signed::Const(0)),
    }
}
