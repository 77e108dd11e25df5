//! The lines of a report, by what was stated and what was found.

ghost use Rattle.std.specs.Prelude.{◌≡◌, map, length, option_map, IfOk};
ghost use Rattle.its_model.specs.Views.{program_of};
ghost use Rattle.outcome.specs.Holding.{ReportHolds};
ghost use Rattle.outcome.specs.Views.{report_of};
ghost use Rattle.signed_bounds.specs.Views.{signed_of};
ghost use Rattle.signed_values.specs.Starts.{comparison_starts as comparison_lists, starts_of};
ghost use Rattle.program_claims.specs.Claims.{AllHoldOf};
ghost use Rattle.claims_check.specs.Views.{stated_of};
ghost use Rattle.best_report.specs.Lines.{line_of};
ghost use Rattle.best_report.specs.Reports.{signed_analysis_bound, IsBestReport, UsesStatements, AreChosen};

use crate::analysis_bounds::analysis_bound;
use crate::choosing::bound_to_print;
use crate::line::Line;
use crate::stated_bounds::{bound_in, bounds_by_subject};
use crate::subject::Subject;
use crate::subjects::subjects;
use crate::totals::with_total;
use claims_check::Statement;
use its_model::Program;
use model::Memory;
use outcome::Outcome;
use signed_bounds::{Signed, signed_bounds_keep_values};
use signed_facts::signed_bound;
use signed_values::comparison_starts;
use std::alloc::Global;

/// The lines of a report on a program: for each subject in order the bound of the first statement on it, or that of the
/// analysis, if there is one; of two bounds the one that isn't greater at any list of start values at which bounds are
/// compared, or else their minimum. No line has a bound that is greater than that of the analysis at one of these lists, or
/// than the first stated one, unless their minimum would pass the limits. A total that neither the analysis nor a
/// statement has is the sum of what the rules spend by the other lines, if each rule has a bound on that, and the sum is
/// within the limits. Statements and the analysis are to hold on all runs.
///
/// # Errors
///
/// `Memory` where an allocation fails.
pub fn report_lines(
    alloc: Global,
    p: &Program,
    outcome: &Outcome,
    stated: &[Statement],
) -> Result<Vec<Line>, Memory>
    requires analysed { ReportHolds (program_of p.now) (report_of outcome.now) }
    requires stated { AllHoldOf (program_of p.now) (map stated_of stated.now) }
    ensures best { IfOk result (λ lines.
        IsBestReport (program_of p.now) (report_of outcome.now) (map line_of lines.items)) }
    ensures uses { IfOk result (λ lines. UsesStatements (program_of p.now) (report_of outcome.now)
        (map stated_of stated.now) (map line_of lines.items)) }
{
    let lines = chosen_lines(alloc, p, outcome, stated)?;
    let all = with_total(alloc, p, lines)?;
    Ok(all)
}

// The lines of a report on a program, without a total that neither the analysis nor a statement has.
fn chosen_lines(
    alloc: Global,
    p: &Program,
    outcome: &Outcome,
    stated: &[Statement],
) -> Result<Vec<Line>, Memory>
    requires analysed { ReportHolds (program_of p.now) (report_of outcome.now) }
    requires stated { AllHoldOf (program_of p.now) (map stated_of stated.now) }
    ensures best { IfOk result (λ lines.
        IsBestReport (program_of p.now) (report_of outcome.now) (map line_of lines.items)) }
    ensures chosen { IfOk result (λ lines. AreChosen (program_of p.now) (report_of outcome.now)
        (map stated_of stated.now) (map line_of lines.items)) }
{
    signed_bounds_keep_values();
    let wanted = subjects(alloc, p)?;
    let starts = starts_of_program(alloc, p)?;
    let table = bounds_by_subject(alloc, stated)?;
    let mut lines = Vec::new(alloc);
    for i in 0..wanted.len() {
        let subject = wanted[i];
        let known = bound_in(&table, subject);
        let found = signed_analysis_bound(alloc, outcome, subject)?;
        let bound = bound_to_print(alloc, found, known, &starts)?;
        lines.push(Line { subject, bound })?;
    }
    Ok(lines)
}

// The lists of start values at which bounds on a program are compared.
fn starts_of_program(alloc: Global, p: &Program) -> Result<Vec<Vec<i128>>, Memory>
    ensures { IfOk result (λ starts.
        starts_of starts.items ≡ comparison_lists (length (program_of p.now).start_names)) }
{
    comparison_starts(alloc, p.start_names.len())
}

// The bound of the analysis on a subject, if it has one.
fn signed_analysis_bound(
    alloc: Global,
    outcome: &Outcome,
    subject: Subject,
) -> Result<Option<Signed>, Memory>
    ensures { IfOk result (λ found.
        option_map signed_of found ≡ signed_analysis_bound (report_of outcome.now) subject) }
{
    match analysis_bound(outcome, subject) {
        None => Ok(None),
        Some(bound) => Ok(Some(signed_bound(alloc, bound)?)),
    }
}
