//! Reads the text of a proof's file for a program, and answers on it.

ghost use Rattle.std.specs.Prelude.{◌<◌, ◌^◌, length};
ghost use Rattle.its_model.specs.Valid.{IsValid};
ghost use Rattle.its_model.specs.Views.{program_of};
ghost use Rattle.proof_forms.specs.Results.{text_of};
ghost use Rattle.proof_forms.specs.Texts as plain;
ghost use Rattle.koat_cli.specs.Commands.Check.{check_answers};
ghost use Rattle.koat_cli.specs.ProofTexts.{proofs};

use crate::proving::verdict_answer;
use call_plans::{FileCommand, Read, Reader, Status, StatusText};
use check_text::refusal_text;
use its_model::Program;
use model::Memory;
use proof_forms::{ProofText, read_proof};
use std::alloc::Global;

/// The reader of proof files of any form for a program, each of at most 67,108,864 bytes.
#[derive(Drop)]
pub(crate) struct Proofs<'a> {
    /// The program.
    pub(crate) program: &'a Program,
}

impl<'a> Reader for Proofs<'a> {
    type Meaning = ProofText;

    ghost Plain = { plain.ProofText };

    ghost kind = { λ reader. proofs (program_of reader.program.now) };

    ghost plain = { text_of };

    ghost ready = { λ reader. IsValid (program_of reader.program.now)
        × (length (program_of reader.program.now).symbols < 2 ^ 32) };

    ghost answers = { λ reader. check_answers (program_of reader.program.now) };

    fn limit(&self) -> u64 {
        67_108_864
    }

    fn refusal_status(&self) -> Status {
        Status::ProofRefused
    }

    fn too_long(&self) -> &'static [u8] {
        b"proof refused: too long\n"
    }

    fn read(&self, alloc: Global, bytes: &[u8]) -> Result<Read<ProofText>, Memory> {
        match read_proof(alloc, self.program, bytes) {
            Ok(proof) => Ok(Read::Meaning(proof)),
            Err(error) => Ok(Read::Refusal(refusal_text(alloc, &error)?)),
        }
    }
}

impl<'a> FileCommand for Proofs<'a> {
    fn answer(&self, alloc: Global, meaning: &ProofText) -> Result<StatusText, Memory> {
        verdict_answer(alloc, self.program, meaning)
    }
}
