//! The branches that are required.

ghost use Rattle.std.specs.Prelude.{◌≡◌, ◌++◌, ◌∷◌, [], map, nat_eq, if◌then◌else◌, option_map, IfOk, OnOk};
ghost use Rattle.cert_rules.specs.Tests.{first_failing};
ghost use Rattle.refined_programs.specs.its_model.Views.{rule_of, program_of};
ghost use Rattle.refined_programs.specs.Views.{annotated_copy, annotated_branch};
ghost use Rattle.section_checks.specs.Faults.{due as due_by, due_at};
ghost use Rattle.section_decide.specs.Deciding.{is_due as is_due_by, branch_tests};
ghost use Rattle.refinement_check.specs.Views.{fault_of, due_of};

use crate::fault::SectionFault;
use its_model::{Program, Rule};
use poly_terms::Memory;
use refined_programs::{Branch, SymbolCopy};
use std::alloc::Global;

/// A branch that is required: of the rule with a number, at the copy with a number.
#[derive(Clone, Copy)]
pub(crate) struct Due {
    pub source: usize,
    pub rule: usize,
}

/// The branches that are required: for each copy, in order, of each rule that leaves its symbol, in order.
///
/// # Errors
///
/// `Memory` where an allocation fails.
pub(crate) fn due_branches(
    alloc: Global,
    p: &Program,
    copies: &[SymbolCopy],
) -> Result<Vec<Due>, Memory>
    ensures { IfOk result
        (λ dues. map due_of dues.items ≡ due_by (program_of p.now) 0 (map annotated_copy copies.now)) }
{
    let mut dues = Vec::new(alloc);
    for (i, copy) in copies.iter().enumerate() {
        push_due(&mut dues, i, copy.over, &p.rules)?;
    }
    Ok(dues)
}

// Appends the branches that are required at a copy.
fn push_due(dues: &mut Vec<Due>, source: usize, symbol: u32, rules: &[Rule]) -> Result<(), Memory>
    ensures { OnOk result (map due_of dues.new.items
        ≡ map due_of dues.old.items ++ due_at source symbol 1 (map rule_of rules.now)) }
{
    for (i, rule) in rules.iter().enumerate() {
        push_if_due(dues, source, symbol, rule, i + 1)?;
    }
    Ok(())
}

// Appends the branch of a rule, if it leaves the symbol.
fn push_if_due(
    dues: &mut Vec<Due>,
    source: usize,
    symbol: u32,
    rule: &Rule,
    number: usize,
) -> Result<(), Memory>
    ensures { OnOk result (map due_of dues.new.items
        ≡ map due_of dues.old.items
        ++ (if nat_eq (rule_of rule.now).source symbol then record { source = source; rule = number } ∷ [] else [])) }
{
    if rule.source == symbol {
        dues.push(Due {
            source,
            rule: number,
        })?;
    }
    Ok(())
}

/// The fault of the first branch that isn't the required one, or of a missing one at the end.
pub(crate) fn wrong_branch(branches: &[Branch], dues: &[Due]) -> Option<SectionFault>
    ensures { option_map fault_of result
        ≡ first_failing (branch_tests 1 (map annotated_branch branches.now) (map due_of dues.now)) }
{
    let mut rest = dues;
    for (i, branch) in branches.iter().enumerate() {
        let Some((due, behind)) = rest.split_first() else {
            return Some(SectionFault::Branch {
                branch: i as u64 + 1,
            });
        };
        let passes = is_due(branch, *due);
        if !passes {
            return Some(SectionFault::Branch {
                branch: i as u64 + 1,
            });
        }
        rest = behind;
    }
    missing(branches.len() as u64 + 1, rest)
}

// The fault that a branch is missing, if some are required after the last one.
fn missing(number: u64, rest: &[Due]) -> Option<SectionFault>
    ensures { option_map fault_of result ≡ first_failing (branch_tests number [] (map due_of rest.now)) }
{
    match rest.split_first() {
        None => None,
        Some(_) => Some(SectionFault::Branch { branch: number }),
    }
}

// Whether a branch is the required one.
fn is_due(branch: &Branch, due: Due) -> bool
    ensures { result ≡ is_due_by (annotated_branch branch.now) (due_of due) }
{
    branch.source as usize == due.source && branch.rule as usize == due.rule
}
