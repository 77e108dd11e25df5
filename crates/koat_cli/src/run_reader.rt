//! Reads the text of a run's file for a program, and answers on it.

ghost use Rattle.its_model.specs.Valid.{IsValid};
ghost use Rattle.its_model.specs.Views.{program_of};
ghost use Rattle.run_replay.specs.Runs as plain;
ghost use Rattle.run_replay.specs.Views.{run_of};
ghost use Rattle.koat_cli.specs.Commands.Replay.{replay_answers};
ghost use Rattle.koat_cli.specs.RunTexts.{runs};

use crate::replaying::replay_answer;
use crate::run_refusal::run_refusal;
use call_plans::{FileCommand, Read, Reader, Status, StatusText};
use its_model::Program;
use model::Memory;
use run_replay::{RunFile, read_run};
use std::alloc::Global;

/// The reader of runs of a program, each of at most 67,108,864 bytes.
#[derive(Drop)]
pub(crate) struct Runs<'a> {
    /// The program.
    pub(crate) program: &'a Program,
}

impl<'a> Reader for Runs<'a> {
    type Meaning = RunFile;

    ghost Plain = { plain.Run };

    ghost kind = { λ reader. runs (program_of reader.program.now) };

    ghost plain = { run_of };

    ghost ready = { λ reader. IsValid (program_of reader.program.now) };

    ghost answers = { λ reader. replay_answers (program_of reader.program.now) };

    fn limit(&self) -> u64 {
        67_108_864
    }

    fn refusal_status(&self) -> Status {
        Status::RunRefused
    }

    fn too_long(&self) -> &'static [u8] {
        b"run refused: too long\n"
    }

    fn read(&self, alloc: Global, bytes: &[u8]) -> Result<Read<RunFile>, Memory> {
        match read_run(alloc, self.program, bytes) {
            Ok(run) => Ok(Read::Meaning(run)),
            Err(error) => Ok(Read::Refusal(run_refusal(alloc, &error)?)),
        }
    }
}

impl<'a> FileCommand for Runs<'a> {
    fn answer(&self, alloc: Global, meaning: &RunFile) -> Result<StatusText, Memory> {
        replay_answer(alloc, self.program, meaning)
    }
}
