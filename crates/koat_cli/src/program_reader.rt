//! Reads the text of a program's file.

ghost use Rattle.std.specs.Prelude.{⊤};
ghost use Rattle.its_model.specs.Views.{program_of};
ghost use Rattle.model.specs.Programs as plain;
ghost use Rattle.call_plans.specs.Plans.{End};
ghost use Rattle.koat_cli.specs.ProgramTexts.{programs};

use crate::refusal::refusal;
use call_plans::{Read, Reader, Status};
use its_model::Program;
use its_reader::read;
use model::Memory;
use std::alloc::Global;

/// The reader of programs, each of at most 4,194,304 bytes.
#[derive(Drop)]
pub(crate) struct Programs;

impl Reader for Programs {
    type Meaning = Program;

    ghost Plain = { plain.Program };

    ghost kind = { λ _. programs };

    ghost plain = { program_of };

    ghost ready = { λ _. ⊤ };

    ghost answers = { λ _ _. End };

    fn limit(&self) -> u64 {
        4_194_304
    }

    fn refusal_status(&self) -> Status {
        Status::ProgramRefused
    }

    fn too_long(&self) -> &'static [u8] {
        b"program refused: too long\n"
    }

    fn read(&self, alloc: Global, bytes: &[u8]) -> Result<Read<Program>, Memory> {
        match read(alloc, bytes) {
            Ok(program) => Ok(Read::Meaning(program)),
            Err(error) => Ok(Read::Refusal(refusal(alloc, &error)?)),
        }
    }
}
