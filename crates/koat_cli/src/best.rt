//! Looks for the best bounds on a program, and for a proof file of them.

ghost use Rattle.std.specs.Prelude.{◌≡◌, ◌<◌, ◌^◌, true, length, IfOk};
ghost use Rattle.its_model.specs.Valid.{IsValid};
ghost use Rattle.its_model.specs.Views.{program_of};
ghost use Rattle.call_plans.specs.Plans.{HasRow};
ghost use Rattle.koat_cli.specs.Commands.Best.{best_answers};
ghost use Rattle.koat_cli.specs.Commands.Certify.{certify_answers, StatesCertificate};

use crate::proving::proof_of_analysis;
use best_bounds::{certificate, find, find_certificate};
use best_report::{is_bounded, print, report_lines};
use call_plans::{Status, StatusText};
use cert_text::ProofTextError;
use facts_report::location_lines;
use form_verdicts::{Verdict, verdict};
use its_model::Program;
use model::Memory;
use proof_forms::read_proof;
use std::alloc::{AllocError, Global};

/// The greatest number of bytes of the text of a proof file.
const PROOF_LIMIT: usize = 67_108_864;

/// The facts at the locations of a program, and the best bounds on it that are found within this many pivots for each
/// linear program, whichever accepted file states them.
pub(crate) fn best(alloc: Global, program: &Program, pivots: u32) -> Result<StatusText, Memory>
    requires { IsValid (program_of program.now) }
    ensures { IfOk result (λ reply.
        HasRow (best_answers pivots (program_of program.now)) reply.status reply.text.items) }
{
    let found = facts_report::analyse(alloc, program, pivots)?;
    let stated = find(alloc, program, pivots)?.best;
    let lines = report_lines(alloc, program, &found.outcome, &stated)?;
    let mut text = location_lines(alloc, program, &found.kept)?;
    text.extend_from_slice(&print(alloc, program, &found.outcome, &lines)?)?;
    if is_bounded(&lines) {
        Ok(StatusText {
            status: Status::Done,
            text,
        })
    } else {
        Ok(StatusText {
            status: Status::Unknown,
            text,
        })
    }
}

/// A proof file that the checker accepts: the best one of those that `best` finds and of that of what `facts` prints; or,
/// where that one isn't read back and accepted, that of the analysis.
pub(crate) fn accepted_certificate(
    alloc: Global,
    program: &Program,
    pivots: u32,
) -> Result<StatusText, Memory>
    requires valid { IsValid (program_of program.now) }
    requires few { length (program_of program.now).symbols < 2 ^ 32 }
    ensures { IfOk result (λ reply.
        HasRow (certify_answers (program_of program.now)) reply.status reply.text.items) }
{
    let accepted = find_certificate(alloc, program, pivots)?;
    let text = certificate(alloc, program, &accepted)?;
    if is_accepted(alloc, program, &text)? {
        return Ok(StatusText {
            status: Status::Done,
            text,
        });
    }
    let StatusText { text, .. } = proof_of_analysis(alloc, program, pivots)?;
    Ok(StatusText {
        status: Status::Done,
        text,
    })
}

// Whether a text is that of a proof file within the limit, which the checker accepts.
fn is_accepted(alloc: Global, program: &Program, text: &[u8]) -> Result<bool, Memory>
    requires valid { IsValid (program_of program.now) }
    requires few { length (program_of program.now).symbols < 2 ^ 32 }
    ensures { IfOk result (λ is. is ≡ true → StatesCertificate (program_of program.now) text.now) }
{
    if text.len() > PROOF_LIMIT {
        return Ok(false);
    }
    match read_proof(alloc, program, text) {
        Ok(proof) => match verdict(alloc, program, &proof)? {
            Verdict::Accepted(_) => Ok(true),
            Verdict::Refused(_) => Ok(false),
        },
        Err(ProofTextError::Memory) => Err(AllocError),
        Err(_) => Ok(false),
    }
}
