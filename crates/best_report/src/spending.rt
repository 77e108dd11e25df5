//! The sum of what the rules spend, by the lines of a report.

ghost use Rattle.std.specs.Prelude.{◌≡◌, map, option_map, IfOk, OnOk};
ghost use Rattle.its_model.specs.Views.{rule_of, program_of};
ghost use Rattle.signed_bounds.specs.Views.{signed_of, signeds_of};
ghost use Rattle.best_report.specs.declared.subject.Subject.{Subject as AnySubject};
ghost use Rattle.best_report.specs.Statements.{first_of, first_on, statements_in};
ghost use Rattle.best_report.specs.Lines.{line_of};
ghost use Rattle.best_report.specs.Spending.{line_bound, bound_at, spending_subject as subject_of_spending};
ghost use Rattle.best_report.specs.Spending.{spending_bounds as bounds_of_spendings, within_limits as within};
ghost use Rattle.best_report.specs.Spending.{sum_of_spendings as sum_by_lines};

use crate::line::Line;
use crate::stated_bounds::{add_bound, bound_in};
use crate::subject::Subject;
use indexmap::IndexMap;
use its_model::{Program, Rule};
use model::Memory;
use potential_types::copied_bound;
use signed_bounds::Signed;
use std::alloc::Global;

/// The sum of the bounds of the lines on what each rule spends: on its cost, if one is written, or else on how often it
/// occurs. There is none if one of these bounds is missing, or if it would exceed the limits of bounds. The time is
/// near-linear in the lines.
///
/// # Errors
///
/// `Memory` where an allocation fails.
pub(crate) fn sum_of_spendings(
    alloc: Global,
    p: &Program,
    lines: &[Line],
) -> Result<Option<Signed>, Memory>
    ensures { IfOk result (λ sum.
        option_map signed_of sum ≡ sum_by_lines (program_of p.now) (map line_of lines.now)) }
{
    let table = bounds_of_lines(alloc, lines)?;
    let found = spending_bounds(alloc, &p.rules, &table)?;
    let Some(bounds) = found else {
        return Ok(None);
    };
    Ok(within_limits(Signed::Sum(bounds)))
}

// The bound of the first line with a bound on each subject on which there is one.
fn bounds_of_lines<'a>(
    alloc: Global,
    lines: &'a [Line],
) -> Result<IndexMap<Subject, &'a Signed>, Memory>
    ensures { IfOk result (λ table. (s : AnySubject) →
        first_on (statements_in table.entries) s ≡ bound_at (map line_of lines.now) s) }
{
    let mut table = IndexMap::new(alloc);
    for line in lines {
        add_line(&mut table, line)?;
    }
    Ok(table)
}

// Adds the bound of a line, if it has one, unless there is one on its subject.
fn add_line<'a>(table: &mut IndexMap<Subject, &'a Signed>, line: &'a Line) -> Result<(), Memory>
    ensures { OnOk result ((s : AnySubject) → first_on (statements_in table.new.entries) s
        ≡ first_of (first_on (statements_in table.old.entries) s)
        (line_bound line.now.subject (option_map signed_of line.now.bound) s)) }
{
    match &line.bound {
        Some(bound) => add_bound(table, line.subject, bound),
        None => Ok(()),
    }
}

// The bounds on what each rule spends, by a table of bounds on subjects, if none is missing.
fn spending_bounds(
    alloc: Global,
    rules: &[Rule],
    table: &IndexMap<Subject, &Signed>,
) -> Result<Option<Vec<Signed>>, Memory>
    ensures { IfOk result (λ found. option_map (λ bounds. signeds_of bounds.items) found
        ≡ bounds_of_spendings (λ s. first_on (statements_in table.now.entries) s) 1 (map rule_of rules.now)) }
{
    let mut bounds = Vec::new(alloc);
    for i in 0..rules.len() {
        let subject = spending_subject(i as u64 + 1, &rules[i]);
        let found = bound_in(table, subject);
        let Some(bound) = found else {
            return Ok(None);
        };
        let copy = copied_bound(alloc, bound)?;
        bounds.push(copy)?;
    }
    Ok(Some(bounds))
}

// The subject on which a bound says what the steps of a rule cost together.
fn spending_subject(number: u64, rule: &Rule) -> Subject
    ensures { result ≡ subject_of_spending number (rule_of rule.now).cost }
{
    if rule.cost.is_some() {
        Subject::Cost(number)
    } else {
        Subject::Time(number)
    }
}

// A bound, unless it exceeds the limits of bounds.
fn within_limits(bound: Signed) -> Option<Signed>
    ensures { option_map signed_of result ≡ within (signed_of bound) }
{
    if bound.exceeds_limits() {
        None
    } else {
        Some(bound)
    }
}
