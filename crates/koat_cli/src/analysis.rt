//! Analyses a program, with facts at its locations or without, and chooses the status.

ghost use Rattle.std.specs.Prelude.{◌≡◌, IfOk};
ghost use Rattle.its_model.specs.Valid.{IsValid};
ghost use Rattle.its_model.specs.Views.{program_of};
ghost use Rattle.outcome.specs.Views.{report_of};
ghost use Rattle.call_plans.specs.Plans.{HasRow};
ghost use Rattle.koat_cli.specs.Commands.Analyse.{analyse_answers};
ghost use Rattle.koat_cli.specs.Commands.Facts.{facts_answers};
ghost use Rattle.koat_cli.specs.Found.{status_of as status_of_report};

use crate::fitting::numbers_fit;
use call_plans::{Status, StatusText};
use its_model::Program;
use model::Memory;
use outcome::Outcome;
use report_text::print;
use std::alloc::Global;
use time_bounds::analyse;

/// The report of the analysis of a program, with this many pivots for each linear program.
pub(crate) fn report(alloc: Global, program: &Program, pivots: u32) -> Result<StatusText, Memory>
    requires { IsValid (program_of program.now) }
    ensures { IfOk result (λ reply.
        HasRow (analyse_answers pivots (program_of program.now)) reply.status reply.text.items) }
{
    let found = analyse(alloc, program, pivots)?;
    numbers_fit(&found);
    let text = print(alloc, program, &found)?;
    Ok(StatusText {
        status: status_of(&found),
        text,
    })
}

/// The facts that are kept at the locations of a program, and the report of the program strengthened by them, with this
/// many pivots for each linear program.
pub(crate) fn report_with_facts(
    alloc: Global,
    program: &Program,
    pivots: u32,
) -> Result<StatusText, Memory>
    requires { IsValid (program_of program.now) }
    ensures { IfOk result (λ reply.
        HasRow (facts_answers pivots (program_of program.now)) reply.status reply.text.items) }
{
    let found = facts_report::analyse(alloc, program, pivots)?;
    let text = facts_report::print(alloc, program, &found)?;
    Ok(StatusText {
        status: status_of(&found.outcome),
        text,
    })
}

/// The status of an outcome: whether every rule has a time, and every rule with a cost a bound on it.
pub(crate) fn status_of(found: &Outcome) -> Status
    ensures { result ≡ status_of_report (report_of found.now) }
{
    if found.is_bounded() {
        Status::Done
    } else {
        Status::Unknown
    }
}
