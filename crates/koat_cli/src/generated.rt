//! The generated program of a number, and the figures of its analysis.

ghost use Rattle.std.specs.Prelude.{◌≤◌, IfOk};
ghost use Rattle.call_plans.specs.Plans.{HasRow};
ghost use Rattle.koat_cli.specs.Commands.Generate.{generate_answers};
ghost use Rattle.koat_cli.specs.Commands.Selfrun.{selfrun_answers};

use crate::analysis::status_of;
use crate::figures::figures;
use call_plans::{Status, StatusText};
use command_line::DEFAULT_PIVOTS;
use its_writer::{generate, print};
use model::Memory;
use std::alloc::Global;
use time_bounds::analyse;

/// The text of the generated program of a number.
pub(crate) fn generated(alloc: Global, n: u32) -> Result<StatusText, Memory>
    requires { n ≤ 100 }
    ensures { IfOk result (λ reply. HasRow (generate_answers n) reply.status reply.text.items) }
{
    let program = generate(alloc, n)?;
    Ok(StatusText {
        status: Status::Done,
        text: print(alloc, &program)?,
    })
}

/// The figures of the analysis of the generated program of a number.
pub(crate) fn figures_answer(alloc: Global, n: u32) -> Result<StatusText, Memory>
    requires { n ≤ 100 }
    ensures { IfOk result (λ reply. HasRow (selfrun_answers n) reply.status reply.text.items) }
{
    let program = generate(alloc, n)?;
    let found = analyse(alloc, &program, DEFAULT_PIVOTS)?;
    Ok(StatusText {
        status: status_of(&found),
        text: figures(alloc, &program, &found)?,
    })
}
