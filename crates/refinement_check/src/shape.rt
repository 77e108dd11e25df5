//! The shape of a section: its start, facts, branches and tests.

ghost use Rattle.std.specs.Prelude.{◌≡◌, ◌∷◌, [], map, option_map, IfOk};
ghost use Rattle.std.specs.List.{list_all};
ghost use Rattle.cert_rules.specs.Tests.{test, first_failing};
ghost use Rattle.refined_programs.specs.model.Programs.{rule_at as rule_numbered};
ghost use Rattle.refined_programs.specs.its_model.Views.{program_of};
ghost use Rattle.refined_programs.specs.Views.{affine_form, annotated_copy, annotated_cases, annotated_branch};
ghost use Rattle.refined_programs.specs.Views.{annotated_of};
ghost use Rattle.section_checks.specs.Faults.{WrongStart, variables_in};
ghost use Rattle.section_decide.specs.Deciding.{starts_right as starts_as, is_wide, fact_tests};
ghost use Rattle.section_decide.specs.Deciding.{are_tests_wide as tests_wide, width_tests};
ghost use Rattle.refinement_check.specs.Stages.{shape_fault_of, facts_fault_of, branches_fault_of};
ghost use Rattle.refinement_check.specs.Views.{fault_of};

use crate::due::{due_branches, wrong_branch};
use crate::fault::SectionFault;
use its_model::Program;
use poly_terms::Memory;
use refined_programs::{Affine, Branch, Cases, Section, SymbolCopy, arity_of, rule_at};
use std::alloc::Global;

/// The first fault of the start, the facts, the branches or their tests.
///
/// # Errors
///
/// `Memory` where an allocation fails.
#[tactic(auto, using(crate::proofs::Stages::or_first, crate::proofs::Stages::ok_second))]
pub(crate) fn shape_fault(
    alloc: Global,
    p: &Program,
    section: &Section,
) -> Result<Option<SectionFault>, Memory>
    ensures { IfOk result
        (λ found. option_map fault_of found ≡ shape_fault_of (program_of p.now) (annotated_of section.now)) }
{
    match wrong_start(p, &section.copies) {
        Some(fault) => Ok(Some(fault)),
        None => facts_fault(alloc, p, &section.copies, &section.branches),
    }
}

// The first fault of the facts, the branches or their tests.
#[tactic(auto, using(crate::proofs::Stages::or_first, crate::proofs::Stages::ok_second))]
fn facts_fault(
    alloc: Global,
    p: &Program,
    copies: &[SymbolCopy],
    branches: &[Branch],
) -> Result<Option<SectionFault>, Memory>
    ensures { IfOk result (λ found. option_map fault_of found ≡ facts_fault_of (program_of p.now)
        (map annotated_copy copies.now) (map annotated_branch branches.now)) }
{
    match wrong_facts(p, copies) {
        Some(fault) => Ok(Some(fault)),
        None => branches_fault(alloc, p, copies, branches),
    }
}

// The first fault of the branches or their tests.
#[tactic(auto, using(crate::proofs::Stages::or_first, crate::proofs::Stages::or_second))]
fn branches_fault(
    alloc: Global,
    p: &Program,
    copies: &[SymbolCopy],
    branches: &[Branch],
) -> Result<Option<SectionFault>, Memory>
    ensures { IfOk result (λ found. option_map fault_of found ≡ branches_fault_of (program_of p.now)
        (map annotated_copy copies.now) (map annotated_branch branches.now)) }
{
    let dues = due_branches(alloc, p, copies)?;
    match wrong_branch(branches, &dues) {
        Some(fault) => Ok(Some(fault)),
        None => Ok(wrong_test(p, branches)),
    }
}

// The fault that the first copy isn't one of the start symbol without facts.
fn wrong_start(p: &Program, copies: &[SymbolCopy]) -> Option<SectionFault>
    ensures { option_map fault_of result
        ≡ first_failing (test WrongStart (starts_as (program_of p.now) (map annotated_copy copies.now)) ∷ []) }
{
    let right = starts_right(p, copies);
    if right {
        None
    } else {
        Some(SectionFault::Start)
    }
}

// Whether there is a first copy, of the start symbol and without facts.
fn starts_right(p: &Program, copies: &[SymbolCopy]) -> bool
    ensures { result ≡ starts_as (program_of p.now) (map annotated_copy copies.now) }
{
    match copies.split_first() {
        None => false,
        Some((copy, _)) => copy.over == p.start && copy.facts.len() == 0,
    }
}

// The fault of the first copy with a fact that has another number of coefficients than its symbol has places.
fn wrong_facts(p: &Program, copies: &[SymbolCopy]) -> Option<SectionFault>
    ensures { option_map fault_of result
        ≡ first_failing (fact_tests (program_of p.now) 1 (map annotated_copy copies.now)) }
{
    for (i, copy) in copies.iter().enumerate() {
        let passes = are_wide(&copy.facts, arity_of(p, copy.over) as u64);
        if !passes {
            return Some(SectionFault::Facts { copy: i as u64 + 1 });
        }
    }
    None
}

// Whether each form has `width` coefficients.
fn are_wide(forms: &[Affine], width: u64) -> bool
    ensures { result ≡ list_all (is_wide width) (map affine_form forms.now) }
{
    for form in forms {
        let passes = form.coefs.len() as u64 == width;
        if !passes {
            return false;
        }
    }
    true
}

// The fault of the first branch with a test that has another number of coefficients than its rule has variables.
fn wrong_test(p: &Program, branches: &[Branch]) -> Option<SectionFault>
    ensures { option_map fault_of result
        ≡ first_failing (width_tests (program_of p.now) 1 (map annotated_branch branches.now)) }
{
    for (i, branch) in branches.iter().enumerate() {
        let passes = are_tests_wide(&branch.cases, variables_of(p, branch.rule));
        if !passes {
            return Some(SectionFault::Test {
                branch: i as u64 + 1,
            });
        }
    }
    None
}

// The number of a rule's variables, 0 if there is no rule.
fn variables_of(p: &Program, rule: u32) -> u64
    ensures { result ≡ variables_in (rule_numbered (program_of p.now) rule) }
{
    match rule_at(p, rule) {
        None => 0,
        Some(r) => r.left as u64 + r.free as u64,
    }
}

// Whether each test among cases has `width` coefficients.
fn are_tests_wide(cases: &Cases, width: u64) -> bool
    ensures { result ≡ tests_wide width (annotated_cases cases.now) }
{
    match cases {
        Cases::To { copy: _, by: _ } => true,
        Cases::Never { by: _ } => true,
        Cases::If { test, yes, no } => {
            test.coefs.len() as u64 == width
                && are_tests_wide(yes, width)
                && are_tests_wide(no, width)
        }
    }
}
