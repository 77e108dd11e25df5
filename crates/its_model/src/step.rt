//! Takes steps in 128 bits.

ghost use Rattle.std.specs.Prelude.{◌≡◌, ◌+◌, ◌<◌, ◌≤◌, ◌^◌, ◌++◌, ◌∷◌, [], ℕ, length, map, slice_index_or, true};
ghost use Rattle.std.specs.Prelude.{false, MatchResult, MatchOption, IfOk, vec_len, vec_capacity};
ghost use Rattle.std.specs.List.{AllByRecursion};
ghost use Rattle.poly_terms.specs.model.Terms.{value};
ghost use Rattle.poly_terms.specs.model.Limits.{atom_limit};
ghost use Rattle.poly_terms.specs.model.Programs.{arity_of, rule_at};
ghost use Rattle.poly_terms.specs.model.Runs.{IsStep};
ghost use Rattle.poly_terms.specs.Views.{term_of};
ghost use Rattle.its_model.specs.Steps.{PastRange, is_related, atom_fault, guard_fault, updates_fault, body_fault};
ghost use Rattle.its_model.specs.Steps.{rule_fault, step_fault, maximum_arity, StepsHaveNoFault};
ghost use Rattle.its_model.specs.StepAnswers.{ComparisonError, fault_of};
ghost use Rattle.its_model.specs.Valid.{IsValid, IsValidAtom, IsValidTerm};
ghost use Rattle.its_model.specs.Steppable.{IsSteppable};
ghost use Rattle.its_model.specs.declared.program.Rule.{Rule};
ghost use Rattle.its_model.specs.Views.{relation_of, atom_of, rule_of, program_of, config_of, step_of};

use crate::guard::{Atom, Rel};
use crate::program::{Program, Rule};
use crate::run::{Config, Step};
use crate::step_error::StepError;
use poly_terms::{Expr, value_in_parts};

/// Takes a step: `next` becomes the configuration that it reaches. It allocates no memory.
///
/// # Errors
///
/// The first fault: the rule, then the atoms in order, then the updates. `next` is then unspecified.
pub fn step_checked(
    p: &Program,
    now: &Config,
    step: &Step,
    next: &mut Config,
) -> Result<(), StepError>
    requires valid { IsValid (program_of p.now) }
    requires places { length now.now.values.items ≡ arity_of (program_of p.now) now.now.at }
    requires room { maximum_arity (program_of p.now).symbols ≤ vec_capacity next.old.values }
    ensures fault { MatchResult result
        (λ _. step_fault (program_of p.now) (config_of now.now) (step_of step.now) ≡ None)
        (λ e. step_fault (program_of p.now) (config_of now.now) (step_of step.now) ≡ Some (fault_of e)) }
    ensures step { IfOk result (λ _.
        IsStep (program_of p.now) (config_of now.now) (step_of step.now) (config_of next.new)) }
    ensures room { maximum_arity (program_of p.now).symbols ≤ vec_capacity next.new.values }
{
    match rule_position(p, step.rule) {
        Some(i) => step_by(&p.rules[i], now, &step.free, next),
        None => Err(StepError::WrongRule),
    }
}

// The position of the rule with this number.
pub(crate) fn rule_position(p: &Program, number: u32) -> Option<usize>
    ensures { MatchOption result
        (rule_at (program_of p.now) number ≡ None)
        (λ i. (i < length p.now.rules.items)
        × ((r : Rule) → r ≡ slice_index_or p.now.rules.items i r
        → rule_at (program_of p.now) number ≡ Some (rule_of r))) }
{
    if number == 0 {
        return None;
    }
    let i = number as usize - 1;
    if i < p.rules.len() { Some(i) } else { None }
}

// Takes a step by a rule.
fn step_by(rule: &Rule, now: &Config, free: &[i128], next: &mut Config) -> Result<(), StepError>
    requires valid { IsSteppable rule.now }
    requires left { now.now.at ≡ rule.now.source → length now.now.values.items ≡ rule.now.left }
    requires room { length rule.now.updates.items ≤ vec_capacity next.old.values }
    ensures fault { MatchResult result
        (λ _. rule_fault (rule_of rule.now) (config_of now.now) free.now ≡ None)
        (λ e. rule_fault (rule_of rule.now) (config_of now.now) free.now ≡ Some (fault_of e)) }
    ensures at { IfOk result (λ _. next.new.at ≡ rule.now.target) }
    ensures values { IfOk result (λ _. next.new.values.items
        ≡ map (λ u. value u (now.now.values.items ++ free.now)) (rule_of rule.now).updates) }
    ensures room { vec_capacity next.old.values ≤ vec_capacity next.new.values }
{
    if now.at != rule.source || free.len() != rule.free as usize {
        return Err(StepError::WrongRule);
    }
    take(rule, &now.values, free, next)
}

// Checks the guard and executes the updates.
fn take(rule: &Rule, left: &[i128], free: &[i128], next: &mut Config) -> Result<(), StepError>
    requires valid { IsSteppable rule.now }
    requires left { length left.now ≡ rule.now.left }
    requires free { length free.now ≡ rule.now.free }
    requires room { length rule.now.updates.items ≤ vec_capacity next.old.values }
    ensures fault { MatchResult result
        (λ _. body_fault (rule_of rule.now) (left.now ++ free.now) ≡ None)
        (λ e. body_fault (rule_of rule.now) (left.now ++ free.now) ≡ Some (fault_of e)) }
    ensures at { IfOk result (λ _. next.new.at ≡ rule.now.target) }
    ensures values { IfOk result (λ _. next.new.values.items
        ≡ map (λ u. value u (left.now ++ free.now)) (rule_of rule.now).updates) }
    ensures room { vec_capacity next.old.values ≤ vec_capacity next.new.values }
{
    match guard_error(&rule.guard, left, free) {
        Some(error) => Err(error),
        None => {
            next.at = rule.target;
            if update(&rule.updates, left, free, &mut next.values) {
                Ok(())
            } else {
                Err(StepError::PassedRange)
            }
        }
    }
}

// The first fault of the atoms.
fn guard_error(atoms: &[Atom], left: &[i128], free: &[i128]) -> Option<StepError>
    requires few { length atoms.now ≤ atom_limit }
    requires valid { AllByRecursion (IsValidAtom (length left.now + length free.now)) (map atom_of atoms.now) }
    ensures { MatchOption result
        (guard_fault (left.now ++ free.now) 1 (map atom_of atoms.now) ≡ None)
        (λ e. guard_fault (left.now ++ free.now) 1 (map atom_of atoms.now) ≡ Some (fault_of e)) }
{
    for (i, atom) in atoms.iter().enumerate() {
        if let Some(error) = atom_error(atom, i as u32 + 1, left, free) {
            return Some(error);
        }
    }
    None
}

// The fault of the atom with a number.
fn atom_error(atom: &Atom, number: u32, left: &[i128], free: &[i128]) -> Option<StepError>
    requires { IsValidAtom (length left.now + length free.now) (atom_of atom.now) }
    ensures { MatchOption result
        (atom_fault (left.now ++ free.now) number (atom_of atom.now) ≡ None)
        (λ e. atom_fault (left.now ++ free.now) number (atom_of atom.now) ≡ Some (fault_of e)) }
{
    match atom {
        Atom::Always => None,
        Atom::Compare {
            left: d,
            rel,
            right: e,
        } => comparison_error(
            value_in_parts(d, left, free),
            *rel,
            value_in_parts(e, left, free),
            number,
        ),
    }
}

// The fault of a comparison with a number, by the values of its sides; a side without a value exceeds 128 bits.
fn comparison_error(x: Option<i128>, rel: Rel, y: Option<i128>, number: u32) -> Option<StepError>
    ensures { ComparisonError result x (relation_of rel) y number }
{
    match (x, y) {
        (Some(x), Some(y)) => {
            if related(x, rel, y) {
                None
            } else {
                Some(StepError::GuardFails { atom: number })
            }
        }
        _ => Some(StepError::PassedRange),
    }
}

// Whether a relation holds.
fn related(x: i128, rel: Rel, y: i128) -> bool
    ensures { result ≡ is_related (relation_of rel) x y }
{
    match rel {
        Rel::Ge => x >= y,
        Rel::Gt => x > y,
        Rel::Le => x <= y,
        Rel::Lt => x < y,
        Rel::Eq => x == y,
    }
}

// Replaces the old values by those of the updates. Returns whether none exceeds 128 bits.
fn update(updates: &[Expr], left: &[i128], free: &[i128], values: &mut Vec<i128>) -> bool
    requires valid { AllByRecursion (IsValidTerm (length left.now + length free.now)) (map term_of updates.now) }
    requires room { length updates.now ≤ vec_capacity values.old }
    ensures yes { result ≡ true → updates_fault (left.now ++ free.now) (map term_of updates.now) ≡ None }
    ensures values { result ≡ true
        → values.new.items ≡ map (λ u. value u (left.now ++ free.now)) (map term_of updates.now) }
    ensures no { result ≡ false → updates_fault (left.now ++ free.now) (map term_of updates.now) ≡ Some PastRange }
    ensures room { vec_capacity values.old ≤ vec_capacity values.new }
{
    values.clear();
    for u in updates {
        match value_in_parts(u, left, free) {
            Some(z) => put(values, z),
            None => return false,
        }
    }
    true
}

// Appends a value if there is room for it.
fn put(values: &mut Vec<i128>, z: i128)
    requires { vec_len values.old < vec_capacity values.old }
    ensures items { values.new.items ≡ values.old.items ++ z ∷ [] }
    ensures capacity { vec_capacity values.old ≤ vec_capacity values.new }
{
    let _ = values.push(z);
}

/// For a configuration with a value for each left variable, a use of a rule has no fault exactly if it is a step and no
/// intermediate value exceeds 128 bits. The function has no code: its contract is the law.
pub fn steps_have_no_fault()
    ensures { StepsHaveNoFault }
{}
