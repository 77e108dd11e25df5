//! Reads a proof file of any form.

ghost use Rattle.std.specs.Prelude.{◌<◌, ◌^◌, length};
ghost use Rattle.its_model.specs.Valid.{IsValid};
ghost use Rattle.its_model.specs.Views.{program_of};
ghost use Rattle.refined_text.specs.Files.{FileReads};
ghost use Rattle.proof_forms.specs.Results.{Answers, AnswersPlain, AnswersOutcome};

use crate::text::ProofText;
use cert_text::{ProofTextError, read};
use its_model::Program;
use proof_parts::is_third_form;
use refined_text::{RefinedTextError, read_refined};
use std::alloc::Global;

/// Reads a text as a proof file of a program, as `docs/proof-format.md` defines it: one that begins with `koat-proof 3`,
/// with no further digit, as one of the third form, and each other one as one of the first or the second form.
///
/// # Errors
///
/// The first refusal of the text, of the form that it begins with. A section that isn't accepted is no refusal of the
/// text. `Memory` comes where memory ran out.
pub fn read_proof(
    alloc: Global,
    program: &Program,
    bytes: &[u8],
) -> Result<ProofText, ProofTextError>
    requires valid { IsValid (program_of program.now) }
    requires few { length (program_of program.now).symbols < 2 ^ 32 }
    ensures { Answers (program_of program.now) bytes.now result }
{
    if is_third_form(bytes) {
        read_third_form(alloc, program, bytes)
    } else {
        read_first_forms(alloc, program, bytes)
    }
}

// The meaning of a text of the first or the second form.
fn read_first_forms(
    alloc: Global,
    program: &Program,
    bytes: &[u8],
) -> Result<ProofText, ProofTextError>
    requires valid { IsValid (program_of program.now) }
    requires few { length (program_of program.now).symbols < 2 ^ 32 }
    ensures { AnswersPlain (program_of program.now) bytes.now result }
{
    match read(alloc, program, bytes) {
        Ok(file) => Ok(ProofText::Plain(file)),
        Err(error) => Err(error),
    }
}

// The meaning of a text of the third form.
fn read_third_form(
    alloc: Global,
    program: &Program,
    bytes: &[u8],
) -> Result<ProofText, ProofTextError>
    requires { IsValid (program_of program.now) }
    ensures { AnswersOutcome (FileReads (program_of program.now) bytes.now) result }
{
    match read_refined(alloc, program, bytes) {
        Ok(file) => Ok(ProofText::Refined(file)),
        Err(RefinedTextError::Refused { kind, at }) => Err(ProofTextError::of(kind, at)),
        Err(RefinedTextError::Section { section, refusal }) => Ok(ProofText::NotRefined {
            section,
            refusal,
        }),
        Err(RefinedTextError::Memory) => Err(ProofTextError::Memory),
    }
}
