//! The subjects of a program, in order.

ghost use Rattle.std.specs.Prelude.{◌≡◌, ◌++◌, ◌∷◌, map, IfOk, OnOk};
ghost use Rattle.poly_terms.specs.Views.{term_of};
ghost use Rattle.its_model.specs.Views.{rule_of, program_of};
ghost use Rattle.best_report.specs.Subjects.{flat_map_numbered, time_subject, cost_subject, subjects_of};
ghost use Rattle.best_report.specs.Subjects.{above_subject, above_subjects, below_subject, below_subjects};

use crate::subject::Subject;
use its_model::{Program, Rule};
use model::Memory;
use poly_terms::Expr;
use std::alloc::Global;

/// The subjects of a program, in order: how often each rule occurs, what the steps of each rule with a cost cost, what
/// all steps cost, and the value at each place after each rule, from above, and then from below.
///
/// # Errors
///
/// `Memory` where an allocation fails.
pub(crate) fn subjects(alloc: Global, p: &Program) -> Result<Vec<Subject>, Memory>
    ensures { IfOk result (λ found. found.items ≡ subjects_of (program_of p.now)) }
{
    let mut found = Vec::new(alloc);
    push_times(&mut found, &p.rules)?;
    push_costs(&mut found, &p.rules)?;
    found.push(Subject::Total)?;
    push_upper_values(&mut found, &p.rules)?;
    push_lower_values(&mut found, &p.rules)?;
    Ok(found)
}

// How often each rule occurs.
fn push_times(found: &mut Vec<Subject>, rules: &[Rule]) -> Result<(), Memory>
    ensures { OnOk result (found.new.items ≡ found.old.items ++ flat_map_numbered time_subject 1 (map rule_of rules.now)) }
{
    for (i, _) in rules.iter().enumerate() {
        found.push(Subject::Time(i as u64 + 1))?;
    }
    Ok(())
}

// What the steps of each rule with a cost cost.
fn push_costs(found: &mut Vec<Subject>, rules: &[Rule]) -> Result<(), Memory>
    ensures { OnOk result (found.new.items ≡ found.old.items ++ flat_map_numbered cost_subject 1 (map rule_of rules.now)) }
{
    for (i, rule) in rules.iter().enumerate() {
        push_cost(found, i as u64 + 1, rule)?;
    }
    Ok(())
}

// What the steps of a rule cost, if a cost is written.
fn push_cost(found: &mut Vec<Subject>, number: u64, rule: &Rule) -> Result<(), Memory>
    ensures { OnOk result (found.new.items ≡ found.old.items ++ cost_subject number (rule_of rule.now)) }
{
    if rule.cost.is_some() {
        found.push(Subject::Cost(number))?;
    }
    Ok(())
}

// The values at the places after each rule, from above.
fn push_upper_values(found: &mut Vec<Subject>, rules: &[Rule]) -> Result<(), Memory>
    ensures { OnOk result (found.new.items ≡ found.old.items ++ flat_map_numbered above_subjects 1 (map rule_of rules.now)) }
{
    for (i, rule) in rules.iter().enumerate() {
        push_upper_values_of_rule(found, i as u64 + 1, &rule.updates)?;
    }
    Ok(())
}

// The values at the places after a rule, from above.
fn push_upper_values_of_rule(
    found: &mut Vec<Subject>,
    number: u64,
    updates: &[Expr],
) -> Result<(), Memory>
    ensures { OnOk result
        (found.new.items ≡ found.old.items ++ flat_map_numbered (above_subject number) 1 (map term_of updates.now)) }
{
    for (i, _) in updates.iter().enumerate() {
        found.push(Subject::Above(number, i as u64 + 1))?;
    }
    Ok(())
}

// The values at the places after each rule, from below.
fn push_lower_values(found: &mut Vec<Subject>, rules: &[Rule]) -> Result<(), Memory>
    ensures { OnOk result (found.new.items ≡ found.old.items ++ flat_map_numbered below_subjects 1 (map rule_of rules.now)) }
{
    for (i, rule) in rules.iter().enumerate() {
        push_lower_values_of_rule(found, i as u64 + 1, &rule.updates)?;
    }
    Ok(())
}

// The values at the places after a rule, from below.
fn push_lower_values_of_rule(
    found: &mut Vec<Subject>,
    number: u64,
    updates: &[Expr],
) -> Result<(), Memory>
    ensures { OnOk result
        (found.new.items ≡ found.old.items ++ flat_map_numbered (below_subject number) 1 (map term_of updates.now)) }
{
    for (i, _) in updates.iter().enumerate() {
        found.push(Subject::Below(number, i as u64 + 1))?;
    }
    Ok(())
}
