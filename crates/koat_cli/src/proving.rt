//! Writes the proof file of an analysis, and the checker's verdict on one.

ghost use Rattle.std.specs.Prelude.{IfOk};
ghost use Rattle.its_model.specs.Valid.{IsValid};
ghost use Rattle.its_model.specs.Views.{program_of};
ghost use Rattle.proof_forms.specs.Results.{text_of};
ghost use Rattle.call_plans.specs.Plans.{HasRow};
ghost use Rattle.koat_cli.specs.Commands.Check.{check_answers};
ghost use Rattle.koat_cli.specs.Commands.Prove.{prove_answers};

use crate::analysis::status_of;
use call_plans::{Status, StatusText};
use cert_text::print;
use cert_types::ProofFile;
use form_verdicts::{Verdict, verdict};
use its_model::Program;
use model::Memory;
use outcome::Outcome;
use proof_forms::ProofText;
use std::alloc::Global;
use time_bounds::analyse;

/// The proof file of the analysis of a program, with this many pivots for each linear program: its lemmas and its gaps.
pub(crate) fn proof_of_analysis(
    alloc: Global,
    program: &Program,
    pivots: u32,
) -> Result<StatusText, Memory>
    requires { IsValid (program_of program.now) }
    ensures { IfOk result (λ reply.
        HasRow (prove_answers pivots (program_of program.now)) reply.status reply.text.items) }
{
    let found = analyse(alloc, program, pivots)?;
    let status = status_of(&found);
    let Outcome { lemmas, gaps, .. } = found;
    let text = print(alloc, program, &ProofFile { lemmas, gaps })?;
    Ok(StatusText { status, text })
}

/// The verdict of the checker on a proof file for a program: all that it states, or what isn't accepted first.
pub(crate) fn verdict_answer(
    alloc: Global,
    program: &Program,
    proof: &ProofText,
) -> Result<StatusText, Memory>
    requires { IsValid (program_of program.now) }
    ensures { IfOk result (λ reply.
        HasRow (check_answers (program_of program.now) (text_of proof.now)) reply.status reply.text.items) }
{
    match verdict(alloc, program, proof)? {
        Verdict::Accepted(text) => Ok(StatusText {
            status: Status::Done,
            text,
        }),
        Verdict::Refused(text) => Ok(StatusText {
            status: Status::NotAccepted,
            text,
        }),
    }
}
