//! The answers on a while program: what the analysis of its translation says of its executions, and the translation.

ghost use Rattle.std.specs.Prelude.{IfOk};
ghost use Rattle.while_answer.specs.Spelled.{IsWithin};
ghost use Rattle.while_answer.specs.while_text.Views.{source_of};
ghost use Rattle.call_plans.specs.Plans.{HasRow};
ghost use Rattle.koat_cli.specs.Commands.While.{while_answers};
ghost use Rattle.koat_cli.specs.Commands.Translate.{translate_answers};

use crate::analysis::report;
use call_plans::{Status, StatusText};
use its_writer::print;
use model::Memory;
use std::alloc::Global;
use while_answer::{Whole, points_text, translate};

/// The positions of the statements of a while program, and the report of the analysis of its translation, with this
/// many pivots for each linear program.
pub(crate) fn executions(alloc: Global, source: &Whole, pivots: u32) -> Result<StatusText, Memory>
    requires { IsWithin (source_of source.now) }
    ensures { IfOk result (λ reply.
        HasRow (while_answers pivots (source_of source.now)) reply.status reply.text.items) }
{
    let program = translate(alloc, source)?;
    let found = report(alloc, &program, pivots)?;
    let mut text = points_text(alloc, &source.at)?;
    text.extend_from_slice(&found.text)?;
    Ok(StatusText {
        status: found.status,
        text,
    })
}

/// The text of the translation of a while program.
pub(crate) fn translation(alloc: Global, source: &Whole) -> Result<StatusText, Memory>
    requires { IsWithin (source_of source.now) }
    ensures { IfOk result (λ reply.
        HasRow (translate_answers (source_of source.now)) reply.status reply.text.items) }
{
    let program = translate(alloc, source)?;
    Ok(StatusText {
        status: Status::Done,
        text: print(alloc, &program)?,
    })
}
