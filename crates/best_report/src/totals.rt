//! The total of a report by what the rules spend, where neither the analysis nor a statement has one.

ghost use Rattle.std.specs.Prelude.{◌≡◌, map, option_map, IfOk};
ghost use Rattle.its_model.specs.Views.{program_of};
ghost use Rattle.signed_bounds.specs.Views.{signed_of};
ghost use Rattle.best_report.specs.Lines.{line_of};
ghost use Rattle.best_report.specs.Spending.{on_all_steps as bound_on_all_steps, with_bound_on_all as line_with};
ghost use Rattle.best_report.specs.Spending.{with_total as lines_with_total};

use crate::line::Line;
use crate::spending::sum_of_spendings;
use crate::subject::Subject;
use its_model::Program;
use model::Memory;
use potential_types::copied_bound;
use signed_bounds::Signed;
use std::alloc::Global;

/// The lines in which the sum of what the rules spend, if there is one, is the bound on all steps, where there is no
/// other.
///
/// # Errors
///
/// `Memory` where an allocation fails.
pub(crate) fn with_total(alloc: Global, p: &Program, lines: Vec<Line>) -> Result<Vec<Line>, Memory>
    ensures { IfOk result (λ all. map line_of all.items ≡ lines_with_total (program_of p.now) (map line_of lines.items)) }
{
    let sum = sum_of_spendings(alloc, p, &lines)?;
    let all = lines_with_bound_on_all(alloc, lines, &sum)?;
    Ok(all)
}

// The lines, of which each that is on all steps and has no bound has this one.
fn lines_with_bound_on_all(
    alloc: Global,
    lines: Vec<Line>,
    bound: &Option<Signed>,
) -> Result<Vec<Line>, Memory>
    ensures { IfOk result (λ all. map line_of all.items
        ≡ map (line_with (option_map signed_of bound.now)) (map line_of lines.items)) }
{
    let mut all = Vec::new(alloc);
    for line in lines {
        let new = with_bound_on_all(alloc, line, bound)?;
        all.push(new)?;
    }
    Ok(all)
}

// A line with this bound, if it is on all steps, and has none.
fn with_bound_on_all(alloc: Global, line: Line, bound: &Option<Signed>) -> Result<Line, Memory>
    ensures { IfOk result (λ l. line_of l ≡ line_with (option_map signed_of bound.now) (line_of line)) }
{
    if line.bound.is_some() {
        return Ok(line);
    }
    let subject = line.subject;
    Ok(Line {
        subject,
        bound: on_all_steps(alloc, bound, subject)?,
    })
}

// A bound on all steps as one on a subject: if that is all steps.
fn on_all_steps(
    alloc: Global,
    bound: &Option<Signed>,
    subject: Subject,
) -> Result<Option<Signed>, Memory>
    ensures { IfOk result (λ b.
        option_map signed_of b ≡ bound_on_all_steps (option_map signed_of bound.now) subject) }
{
    match subject {
        Subject::Total => copied(alloc, bound),
        _ => Ok(None),
    }
}

// A bound, where there is one, in memory of its own.
fn copied(alloc: Global, bound: &Option<Signed>) -> Result<Option<Signed>, Memory>
    ensures { IfOk result (λ b. option_map signed_of b ≡ option_map signed_of bound.now) }
{
    match bound {
        Some(bound) => Ok(Some(copied_bound(alloc, bound)?)),
        None => Ok(None),
    }
}
