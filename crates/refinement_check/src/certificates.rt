//! The obligations of an end: guards that have to be unsatisfiable, with multipliers that have to show so.

ghost use Rattle.std.specs.Prelude.{◌≡◌, ◌∷◌, [], map, option_map, IfOk, true};
ghost use Rattle.std.specs.List.{AllByRecursion};
ghost use Rattle.cert_rules.specs.NumberTests.{are_in_limit, implies};
ghost use Rattle.cert_rules.specs.Tests.{first_failing};
ghost use Rattle.refined_programs.specs.model.Programs.{rule_at as rule_numbered};
ghost use Rattle.refined_programs.specs.its_model.Views.{atom_of, rule_of, program_of};
ghost use Rattle.refined_programs.specs.Affine.{affine_of};
ghost use Rattle.refined_programs.specs.Ends.{lists_of, end_of, goal_of};
ghost use Rattle.refined_programs.specs.Views.{copy_of};
ghost use Rattle.refinement_rows.specs.linear_forms.Certificates.{minus_one};
ghost use Rattle.refinement_rows.specs.guard_prep.Laws.{IsPreparable};
ghost use Rattle.refinement_rows.specs.guard_prep.Prepared.{rows_of, prepared as prepared_by};
ghost use Rattle.refinement_rows.specs.guard_prep.Views.{prepared_of};
ghost use Rattle.section_checks.specs.Faults.{NotNever, obligations_of};
ghost use Rattle.section_decide.specs.Deciding.{obligation_tests, fits_rows};
ghost use Rattle.refinement_check.specs.Views.{fault_of, obligation_of, denied, obligation_along, obligations_of_facts, obligations_by};

use crate::ends::NumberedEnd;
use crate::fault::SectionFault;
use farkas_cert::{LIMIT, empty};
use guard_prep::{RuleRows, rows, rows_suit_certificates};
use its_model::{Program, Rule};
use poly_terms::Memory;
use refined_programs::{
    Affine, Goal, Multipliers, SymbolCopy, below_zero, moved, rule_along, rule_at,
};
use std::alloc::Global;

/// A guard that has to be unsatisfiable, as a rule that has it, with multipliers that have to show so, and the fault if
/// they don't.
#[derive(Drop)]
pub(crate) struct Obligation {
    pub rule: Rule,
    pub by: Vec<u64>,
    pub fault: SectionFault,
}

// The numbers of an end and of a fact of its copy.
#[derive(Clone, Copy)]
struct FactPlace {
    end: u64,
    fact: u64,
}

/// The obligations of the end with a number: if it is nowhere, the guard along its path; if it is at a copy, that guard
/// with each fact of the copy denied at the new values.
///
/// # Errors
///
/// `Memory` where an allocation fails.
pub(crate) fn obligations(
    alloc: Global,
    p: &Program,
    copies: &[SymbolCopy],
    number: u64,
    end: &NumberedEnd,
) -> Result<Vec<Obligation>, Memory>
    ensures { IfOk result (λ found. map obligation_of found.items
        ≡ obligations_of (map copy_of copies.now) number (rule_numbered (program_of p.now) end.now.rule)
        (end_of end.now.end)) }
{
    match rule_at(p, end.rule) {
        None => Ok(Vec::new(alloc)),
        Some(rule) => {
            let along = rule_along(alloc, rule, &end.end.atoms)?;
            obligations_along(alloc, copies, number, along, &end.end.goal)
        }
    }
}

// The obligations of an end, where `along` is the rule with the guard along its path.
fn obligations_along(
    alloc: Global,
    copies: &[SymbolCopy],
    number: u64,
    along: Rule,
    goal: &Goal,
) -> Result<Vec<Obligation>, Memory>
    ensures { IfOk result (λ found. map obligation_of found.items
        ≡ obligations_by (map copy_of copies.now) number (rule_of along) (goal_of goal.now)) }
{
    match goal {
        Goal::Nowhere { by } => unmet_guard(alloc, number, along, by),
        Goal::Copy { copy, by } => match copies.get(*copy as usize) {
            None => Ok(Vec::new(alloc)),
            Some(c) => kept_facts(alloc, number, along, &c.facts, by),
        },
    }
}

// The obligation that the guard along a path is unsatisfiable.
fn unmet_guard(
    alloc: Global,
    number: u64,
    rule: Rule,
    by: &Multipliers,
) -> Result<Vec<Obligation>, Memory>
    ensures { IfOk result (λ found. map obligation_of found.items
        ≡ record { rule = rule_of rule; by = by.now.numbers.items; fault = NotNever number } ∷ []) }
{
    let by = by.numbers.as_slice().to_vec(alloc)?;
    let fault = SectionFault::Never { end: number };
    let mut found = Vec::new(alloc);
    found.push(Obligation { rule, by, fault })?;
    Ok(found)
}

// The obligations of the facts of an end's copy.
fn kept_facts(
    alloc: Global,
    number: u64,
    along: Rule,
    facts: &[Affine],
    by: &[Multipliers],
) -> Result<Vec<Obligation>, Memory>
    ensures { IfOk result (λ found. map obligation_of found.items
        ≡ obligations_of_facts number 1 (rule_of along) (map affine_of facts.now) (lists_of by.now)) }
{
    let mut found = Vec::new(alloc);
    let mut lists = by;
    for (j, fact) in facts.iter().enumerate() {
        let Some((list, behind)) = lists.split_first() else {
            return Ok(found);
        };
        let place = FactPlace {
            end: number,
            fact: j as u64 + 1,
        };
        found.push(obligation_of_fact(alloc, &along, fact, list, place)?)?;
        lists = behind;
    }
    Ok(found)
}

// The obligation of a fact of an end's copy.
fn obligation_of_fact(
    alloc: Global,
    along: &Rule,
    fact: &Affine,
    list: &Multipliers,
    place: FactPlace,
) -> Result<Obligation, Memory>
    ensures { IfOk result (λ o. obligation_of o ≡ obligation_along (rule_of along.now) (affine_of fact.now)
        list.now.numbers.items place.end place.fact) }
{
    let rule = rule_with_failure(alloc, along, fact)?;
    let by = list.numbers.as_slice().to_vec(alloc)?;
    let fault = SectionFault::Fact {
        end: place.end,
        fact: place.fact,
    };
    Ok(Obligation { rule, by, fault })
}

// A rule with one more atom: that a fact fails at the new values.
fn rule_with_failure(alloc: Global, along: &Rule, fact: &Affine) -> Result<Rule, Memory>
    ensures { IfOk result (λ r. rule_of r ≡ denied (rule_of along.now) (affine_of fact.now)) }
{
    let form = fact.expr(alloc)?;
    let mut atoms = Vec::new(alloc);
    atoms.push(below_zero(moved(alloc, &form, &along.updates)?))?;
    rule_along(alloc, along, &atoms)
}

/// The first fault of the obligations of an end: a number of multipliers that isn't that of the rows, one over the
/// limit, or multipliers that don't show that the rows have no point.
///
/// # Errors
///
/// `Memory` where an allocation fails.
pub(crate) fn unmet(
    alloc: Global,
    number: u64,
    obligations: &[Obligation],
) -> Result<Option<SectionFault>, Memory>
    requires { AllByRecursion (λ o. IsPreparable o.rule) (map obligation_of obligations.now) }
    ensures { IfOk result (λ found. option_map fault_of found
        ≡ first_failing (obligation_tests number (map obligation_of obligations.now))) }
{
    for obligation in obligations {
        if let Some(fault) = fault_in(alloc, number, obligation)? {
            return Ok(Some(fault));
        }
    }
    Ok(None)
}

// The fault of the multipliers of an obligation, if they have one.
fn fault_in(
    alloc: Global,
    number: u64,
    obligation: &Obligation,
) -> Result<Option<SectionFault>, Memory>
    requires { IsPreparable (rule_of obligation.now.rule) }
    ensures { IfOk result (λ found. option_map fault_of found
        ≡ first_failing (obligation_tests number (obligation_of obligation.now ∷ []))) }
{
    let prepared = rows(alloc, &obligation.rule)?;
    if !fits(obligation, &prepared) {
        return Ok(Some(SectionFault::Shape { end: number }));
    }
    if !shows(obligation, &prepared) {
        return Ok(Some(obligation.fault));
    }
    Ok(None)
}

// Whether there is a multiplier for each row, and none is too large.
fn fits(obligation: &Obligation, prepared: &RuleRows) -> bool
    requires { prepared_of prepared.now ≡ prepared_by (rule_of obligation.now.rule) }
    ensures { result ≡ fits_rows (obligation_of obligation.now) }
{
    obligation.by.len() == prepared.rows.len() && are_within(&obligation.by)
}

// Whether the multipliers show that the rows have no point.
fn shows(obligation: &Obligation, prepared: &RuleRows) -> bool
    requires preparable { IsPreparable (rule_of obligation.now.rule) }
    requires rows { prepared_of prepared.now ≡ prepared_by (rule_of obligation.now.rule) }
    requires fits { fits_rows (obligation_of obligation.now) ≡ true }
    ensures { result ≡ implies (rows_of (rule_of obligation.now.rule)) obligation.now.by.items minus_one }
{
    // The law that the rows have the sizes that `empty` requires.
    rows_suit_certificates();
    empty(&prepared.rows, &obligation.by)
}

// Whether multipliers are at most 2^56.
fn are_within(by: &[u64]) -> bool
    ensures { result ≡ are_in_limit by.now }
{
    for number in by {
        if *number > LIMIT {
            return false;
        }
    }
    true
}
