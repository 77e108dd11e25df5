//! Reads the text of a lasso file of either form for a program, and answers on it.

ghost use Rattle.its_model.specs.Valid.{IsValid};
ghost use Rattle.its_model.specs.Views.{program_of};
ghost use Rattle.lasso_forms.specs.Files as plain;
ghost use Rattle.lasso_forms.specs.Views.{file_of};
ghost use Rattle.koat_cli.specs.Commands.Lasso.{lasso_answers};
ghost use Rattle.koat_cli.specs.LassoTexts.{lassos};

use crate::lasso_answer::lasso_answer;
use crate::run_refusal::run_refusal;
use call_plans::{FileCommand, Read, Reader, Status, StatusText};
use its_model::Program;
use lasso_forms::{LassoFile, read_lasso_file};
use model::Memory;
use std::alloc::Global;

/// The reader of lasso files of a program, each of at most 67,108,864 bytes.
#[derive(Drop)]
pub(crate) struct Lassos<'a> {
    /// The program.
    pub(crate) program: &'a Program,
}

impl<'a> Reader for Lassos<'a> {
    type Meaning = LassoFile;

    ghost Plain = { plain.LassoFile };

    ghost kind = { λ reader. lassos (program_of reader.program.now) };

    ghost plain = { file_of };

    ghost ready = { λ reader. IsValid (program_of reader.program.now) };

    ghost answers = { λ reader. lasso_answers (program_of reader.program.now) };

    fn limit(&self) -> u64 {
        67_108_864
    }

    fn refusal_status(&self) -> Status {
        Status::RunRefused
    }

    fn too_long(&self) -> &'static [u8] {
        b"run refused: too long\n"
    }

    fn read(&self, alloc: Global, bytes: &[u8]) -> Result<Read<LassoFile>, Memory> {
        match read_lasso_file(alloc, self.program, bytes) {
            Ok(file) => Ok(Read::Meaning(file)),
            Err(error) => Ok(Read::Refusal(run_refusal(alloc, &error)?)),
        }
    }
}

impl<'a> FileCommand for Lassos<'a> {
    fn answer(&self, alloc: Global, meaning: &LassoFile) -> Result<StatusText, Memory> {
        lasso_answer(alloc, self.program, meaning)
    }
}
