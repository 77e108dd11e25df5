//! The ends of all branches, in one list, and the checks of their shape.

ghost use Rattle.std.specs.Prelude.{◌≡◌, ◌++◌, ◌∷◌, [], map, option_map, slice_get, nat_eq, IfOk, OnOk};
ghost use Rattle.std.specs.List.{list_any};
ghost use Rattle.cert_rules.specs.Tests.{test, first_failing};
ghost use Rattle.refined_programs.specs.model.Programs.{rule_at as rule_numbered};
ghost use Rattle.refined_programs.specs.its_model.Views.{program_of};
ghost use Rattle.refined_programs.specs.Ends.{lists_of, goal_of, end_of};
ghost use Rattle.refined_programs.specs.Views.{copy_of, section_of, annotated_branch};
ghost use Rattle.section_checks.specs.Faults.{WrongRules};
ghost use Rattle.section_decide.specs.Deciding.{fits_at, goal_fits as fits_goal, shape_tests, are_rules_right};
ghost use Rattle.refinement_check.specs.Views.{fault_of, numbered_end_of, numbered_ends_of_branch, numbered_ends};
ghost use Rattle.refinement_check.specs.Views.{numbered as numbered_as, placed, sources_by, sources_of};

use crate::fault::SectionFault;
use its_model::Program;
use model::RULE_LIMIT;
use poly_terms::Memory;
use refined_programs::{Branch, End, Goal, Multipliers, Section, SymbolCopy, branch_ends, rule_at};
use std::alloc::Global;

/// An end of a branch, with the numbers of the copy that it leaves and of its rule.
#[derive(Drop)]
pub(crate) struct NumberedEnd {
    pub source: u32,
    pub rule: u32,
    pub end: End,
}

/// The ends of all branches, in order.
///
/// # Errors
///
/// `Memory` where an allocation fails.
pub(crate) fn all_ends(alloc: Global, section: &Section) -> Result<Vec<NumberedEnd>, Memory>
    ensures { IfOk result (λ ends. map numbered_end_of ends.items
        ≡ numbered_ends (section_of section.now) (map annotated_branch section.now.branches.items)) }
{
    let mut ends = Vec::new(alloc);
    for branch in &section.branches {
        push_ends(alloc, &mut ends, section, branch)?;
    }
    Ok(ends)
}

// Appends the ends of a branch.
fn push_ends(
    alloc: Global,
    ends: &mut Vec<NumberedEnd>,
    section: &Section,
    branch: &Branch,
) -> Result<(), Memory>
    ensures { OnOk result (map numbered_end_of ends.new.items ≡ map numbered_end_of ends.old.items
        ++ numbered_ends_of_branch (section_of section.now) (annotated_branch branch.now)) }
{
    let found = branch_ends(alloc, section, branch)?;
    push_numbered(ends, branch.source, branch.rule, found)
}

// Appends ends with the numbers of the copy that they leave and of their rule.
fn push_numbered(
    ends: &mut Vec<NumberedEnd>,
    source: u32,
    rule: u32,
    found: Vec<End>,
) -> Result<(), Memory>
    ensures { OnOk result (map numbered_end_of ends.new.items ≡ map numbered_end_of ends.old.items
        ++ map (numbered_as source rule) (map end_of found.items)) }
{
    for end in found {
        ends.push(NumberedEnd { source, rule, end })?;
    }
    Ok(())
}

/// The fault of the first end that is neither nowhere nor at a copy of the rule's target with as many lists of
/// multipliers as facts.
pub(crate) fn wrong_shape(
    p: &Program,
    copies: &[SymbolCopy],
    ends: &[NumberedEnd],
) -> Option<SectionFault>
    ensures { option_map fault_of result ≡ first_failing (shape_tests (map copy_of copies.now) 1
        (map (placed (program_of p.now)) (map numbered_end_of ends.now))) }
{
    for (i, end) in ends.iter().enumerate() {
        let passes = goal_fits(p, copies, end.rule, &end.end.goal);
        if !passes {
            return Some(SectionFault::Shape { end: i as u64 + 1 });
        }
    }
    None
}

// Whether an end is at a copy of the rule's target, or nowhere.
fn goal_fits(p: &Program, copies: &[SymbolCopy], rule: u32, goal: &Goal) -> bool
    ensures { result ≡ fits_goal (map copy_of copies.now) (rule_numbered (program_of p.now) rule) (goal_of goal.now) }
{
    match goal {
        Goal::Nowhere { by: _ } => true,
        Goal::Copy { copy, by } => fits_copy(p, copies, rule, *copy, by),
    }
}

// Whether a copy is of the rule's target, with as many facts as there are lists.
fn fits_copy(p: &Program, copies: &[SymbolCopy], rule: u32, copy: u32, by: &[Multipliers]) -> bool
    ensures { result ≡ fits_at (slice_get (map copy_of copies.now) copy) (rule_numbered (program_of p.now) rule)
        (lists_of by.now) }
{
    match (copies.get(copy as usize), rule_at(p, rule)) {
        (Some(c), Some(r)) => c.over == r.target && by.len() == c.facts.len(),
        _ => false,
    }
}

/// The fault that more than 1,000 ends are at copies, or that none of them leaves the first copy.
///
/// # Errors
///
/// `Memory` where an allocation fails.
pub(crate) fn wrong_rules(
    alloc: Global,
    p: &Program,
    ends: &[NumberedEnd],
) -> Result<Option<SectionFault>, Memory>
    ensures { IfOk result (λ found. option_map fault_of found ≡ first_failing
        (test WrongRules (are_rules_right (map (placed (program_of p.now)) (map numbered_end_of ends.now))) ∷ [])) }
{
    let right = rules_are_right(alloc, p, ends)?;
    if right {
        Ok(None)
    } else {
        Ok(Some(SectionFault::Rules))
    }
}

// Whether at most 1,000 ends are at copies, and one of them leaves the first copy.
fn rules_are_right(alloc: Global, p: &Program, ends: &[NumberedEnd]) -> Result<bool, Memory>
    ensures { IfOk result
        (λ right. right ≡ are_rules_right (map (placed (program_of p.now)) (map numbered_end_of ends.now))) }
{
    let sources = sources_at_copies(alloc, ends)?;
    if sources.len() > RULE_LIMIT {
        return Ok(false);
    }
    Ok(has_zero(&sources))
}

// The copies that the ends at copies leave, in order.
fn sources_at_copies(alloc: Global, ends: &[NumberedEnd]) -> Result<Vec<u32>, Memory>
    ensures { IfOk result (λ sources. sources.items ≡ sources_of (map numbered_end_of ends.now)) }
{
    let mut sources = Vec::new(alloc);
    for end in ends {
        push_source(&mut sources, end.source, &end.end.goal)?;
    }
    Ok(sources)
}

// Appends the copy that an end leaves, if the end is at a copy.
fn push_source(sources: &mut Vec<u32>, source: u32, goal: &Goal) -> Result<(), Memory>
    ensures { OnOk result (sources.new.items ≡ sources.old.items ++ sources_by source (goal_of goal.now)) }
{
    match goal {
        Goal::Nowhere { by: _ } => Ok(()),
        Goal::Copy { copy: _, by: _ } => {
            sources.push(source)?;
            Ok(())
        }
    }
}

// Whether one of these numbers is 0.
fn has_zero(numbers: &[u32]) -> bool
    ensures { result ≡ list_any (λ n. nat_eq n 0) numbers.now }
{
    for number in numbers {
        if *number == 0 {
            return true;
        }
    }
    false
}
