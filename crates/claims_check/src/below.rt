//! The rules below those of the program that a section spells.

ghost use Rattle.std.specs.Prelude.{◌≡◌, ◌++◌, ◌<◌, ◌^◌, length, map, option_map, IfOk, OnOk};
ghost use Rattle.its_model.specs.Views.{program_of};
ghost use Rattle.refinement.specs.Sections.{rule_copies};
ghost use Rattle.refined_programs.specs.Views.{branch_of, cases_of, section_of};
ghost use Rattle.claims_check.specs.Below.{numbers_from, numbers_along, branch_numbers, numbers_below};

use its_model::Program;
use poly_terms::Memory;
use refined_programs::{Branch, Cases, Section, rule_at};
use std::alloc::Global;

/// For each rule of the program that a section spells, in order, the number of the rule that it is a copy of. Without a
/// section the rules are those of the program itself, with the numbers from 1 on.
///
/// # Errors
///
/// `Memory` where an allocation fails.
pub fn rules_below(
    alloc: Global,
    program: &Program,
    section: Option<&Section>,
) -> Result<Vec<u32>, Memory>
    requires { length program.now.rules.items < 2 ^ 32 }
    ensures { IfOk result (λ below. below.items
        ≡ numbers_below (program_of program.now) (option_map (λ s. section_of s.now) section.entry)) }
{
    match section {
        Some(section) => copied_rules(alloc, program, section),
        None => own_rules(alloc, program.rules.len()),
    }
}

// The numbers from 1 on, so many of them.
fn own_rules(alloc: Global, count: usize) -> Result<Vec<u32>, Memory>
    requires { count < 2 ^ 32 }
    ensures { IfOk result (λ below. below.items ≡ numbers_from 1 count) }
{
    let mut below = Vec::new(alloc);
    for i in 0..count {
        below.push(i as u32 + 1)?;
    }
    Ok(below)
}

// For each copy of a rule, in order, the number of the rule.
fn copied_rules(alloc: Global, program: &Program, section: &Section) -> Result<Vec<u32>, Memory>
    ensures { IfOk result (λ below. below.items ≡ map (λ c. c.of_rule)
        (rule_copies (program_of program.now) (section_of section.now) (section_of section.now).branches)) }
{
    let mut below = Vec::new(alloc);
    for branch in &section.branches {
        push_branch(&mut below, program, branch)?;
    }
    Ok(below)
}

// Appends the rule of a branch, if there is such a rule, once for each of its copies.
fn push_branch(below: &mut Vec<u32>, program: &Program, branch: &Branch) -> Result<(), Memory>
    ensures { OnOk result
        (below.new.items ≡ below.old.items ++ branch_numbers (program_of program.now) (branch_of branch.now)) }
{
    match rule_at(program, branch.rule) {
        Some(_) => push_paths(below, branch.rule, &branch.cases),
        None => Ok(()),
    }
}

// Appends a rule once for each path of cases to a copy.
fn push_paths(below: &mut Vec<u32>, rule: u32, cases: &Cases) -> Result<(), Memory>
    ensures { OnOk result (below.new.items ≡ below.old.items ++ numbers_along rule (cases_of cases.now)) }
{
    match cases {
        Cases::To { .. } => {
            below.push(rule)?;
            Ok(())
        }
        Cases::Never { .. } => Ok(()),
        Cases::If { yes, no, .. } => {
            push_paths(below, rule, yes)?;
            push_paths(below, rule, no)
        }
    }
}
