//! Whether a step keeps leading on as the values move, and the values after it.

ghost use Rattle.std.specs.Prelude.{◌≡◌, ℕ, length, map, MatchOption, MatchResult, IfOk, None, Some};
ghost use Rattle.its_model.specs.model.Programs.{rule_at};
ghost use Rattle.its_model.specs.poly_terms.Views.{term_of};
ghost use Rattle.its_model.specs.Views.{relation_of, atom_of, rule_of, program_of};
ghost use Rattle.affine_turns.specs.Affine.{with_free};
ghost use Rattle.affine_turns.specs.Turns.{AtomStops, keeps, sides_keep, atom_keeps, guard_stop, updates_stop};
ghost use Rattle.affine_turns.specs.Turns.{values_affine, rule_stop, new_affine, step_stop, step_affine};
ghost use Rattle.affine_turns.specs.Stops.{Stops, stop_in};

use crate::affine::Affine;
use crate::stop::StopError;
use crate::value::affine_of;
use its_model::{Atom, Program, Rel, Rule, Step};
use poly_terms::Expr;
use std::alloc::Global;

/// The affine values at the places after a step, from those before it; none if there is no such rule.
///
/// # Errors
///
/// The first atom of the rule that may cease to hold, else the first place whose new value isn't found to change by the
/// same amount in each turn. `Memory` if memory runs out.
pub fn step_on(
    alloc: Global,
    p: &Program,
    places: &[Affine],
    step: &Step,
) -> Result<Vec<Affine>, StopError>
    ensures { MatchResult result
        (λ behind. (step_stop (rule_at (program_of p.now) step.now.rule) places.now step.now.free.items ≡ None)
        × (behind.items ≡ step_affine (rule_at (program_of p.now) step.now.rule) places.now step.now.free.items))
        (Stops (step_stop (rule_at (program_of p.now) step.now.rule) places.now step.now.free.items)) }
{
    let number = step.rule as usize;
    if number == 0 || number > p.rules.len() {
        return Ok(Vec::new(alloc));
    }
    rule_on(alloc, &p.rules[number - 1], places, &step.free)
}

// The affine values at the places after a step by a rule.
fn rule_on(
    alloc: Global,
    rule: &Rule,
    places: &[Affine],
    free: &[i128],
) -> Result<Vec<Affine>, StopError>
    ensures { MatchResult result
        (λ behind. (rule_stop (rule_of rule.now) (with_free places.now free.now) ≡ None)
        × (behind.items ≡ new_affine (rule_of rule.now) (with_free places.now free.now)))
        (Stops (rule_stop (rule_of rule.now) (with_free places.now free.now))) }
{
    if let Some(atom) = first_stop(&rule.guard, places, free) {
        return Err(StopError::AtomStops { atom });
    }
    new_values(alloc, &rule.updates, places, free)
}

// The number of the first atom that fails the test.
fn first_stop(atoms: &[Atom], places: &[Affine], free: &[i128]) -> Option<u64>
    ensures { MatchOption result
        (guard_stop (with_free places.now free.now) 1 (map atom_of atoms.now) ≡ None)
        (λ n. guard_stop (with_free places.now free.now) 1 (map atom_of atoms.now) ≡ Some (AtomStops n)) }
{
    for i in 0..atoms.len() {
        if !keeps_atom(&atoms[i], places, free) {
            return Some(i as u64 + 1);
        }
    }
    None
}

// Whether an atom passes the test that it keeps holding.
fn keeps_atom(atom: &Atom, places: &[Affine], free: &[i128]) -> bool
    ensures { result ≡ atom_keeps (with_free places.now free.now) (atom_of atom.now) }
{
    match atom {
        Atom::Always => true,
        Atom::Compare { left, rel, right } => {
            keeps_sides(
                affine_of(left, places, free),
                *rel,
                affine_of(right, places, free),
            )
        }
    }
}

// Whether a relation between two sides keeps holding; it needs both sides to be affine.
fn keeps_sides(left: Option<Affine>, rel: Rel, right: Option<Affine>) -> bool
    ensures { result ≡ sides_keep (relation_of rel) left right }
{
    match (left, right) {
        (Some(a), Some(b)) => keeps_by(rel, a.slope, b.slope),
        _ => false,
    }
}

// Whether a relation that holds keeps holding if its sides change by these amounts.
fn keeps_by(rel: Rel, left: i128, right: i128) -> bool
    ensures { result ≡ keeps (relation_of rel) left right }
{
    match rel {
        Rel::Ge | Rel::Gt => left >= right,
        Rel::Le | Rel::Lt => left <= right,
        Rel::Eq => left == right,
    }
}

// The affine new values, or the first place whose new value isn't found to be affine.
fn new_values(
    alloc: Global,
    updates: &[Expr],
    places: &[Affine],
    free: &[i128],
) -> Result<Vec<Affine>, StopError>
    ensures { MatchResult result
        (λ behind. (updates_stop (with_free places.now free.now) 1 (map term_of updates.now) ≡ None)
        × (behind.items ≡ values_affine (with_free places.now free.now) (map term_of updates.now)))
        (Stops (updates_stop (with_free places.now free.now) 1 (map term_of updates.now))) }
{
    let mut behind = Vec::new(alloc);
    for i in 0..updates.len() {
        match affine_of(&updates[i], places, free) {
            Some(value) => behind.push(value)?,
            None => return Err(StopError::NonlinearPlace {
                place: i as u64 + 1,
            }),
        }
    }
    Ok(behind)
}
