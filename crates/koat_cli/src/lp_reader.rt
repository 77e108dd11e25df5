//! Reads the text of a linear program's file, and answers on it.

ghost use Rattle.std.specs.Prelude.{⊤};
ghost use Rattle.lp_text.specs.Lps.{Lp};
ghost use Rattle.lp_text.specs.Views.{lp_of};
ghost use Rattle.koat_cli.specs.Commands.Lp.{lp_answers};
ghost use Rattle.koat_cli.specs.LpTexts.{linear_programs};

use call_plans::{FileCommand, Read, Reader, Status, StatusText};
use lp_answer::{LpAnswer, answer_lp, refusal_text};
use lp_text::{WrittenLp, read_written};
use model::Memory;
use std::alloc::Global;

/// The reader of linear programs, each of at most 4,194,304 bytes.
#[derive(Drop)]
pub(crate) struct LinearPrograms;

impl Reader for LinearPrograms {
    type Meaning = WrittenLp;

    ghost Plain = { Lp };

    ghost kind = { λ _. linear_programs };

    ghost plain = { lp_of };

    ghost ready = { λ _. ⊤ };

    ghost answers = { λ _. lp_answers };

    fn limit(&self) -> u64 {
        4_194_304
    }

    fn refusal_status(&self) -> Status {
        Status::ProgramRefused
    }

    fn too_long(&self) -> &'static [u8] {
        b"program refused: too long\n"
    }

    fn read(&self, alloc: Global, bytes: &[u8]) -> Result<Read<WrittenLp>, Memory> {
        match read_written(alloc, bytes) {
            Ok(written) => Ok(Read::Meaning(written)),
            Err(error) => Ok(Read::Refusal(refusal_text(alloc, &error)?)),
        }
    }
}

impl FileCommand for LinearPrograms {
    fn answer(&self, alloc: Global, meaning: &WrittenLp) -> Result<StatusText, Memory> {
        match answer_lp(alloc, meaning)? {
            LpAnswer::Ended(text) => Ok(StatusText {
                status: Status::Done,
                text,
            }),
            LpAnswer::Stopped(text) => Ok(StatusText {
                status: Status::Unknown,
                text,
            }),
        }
    }
}
