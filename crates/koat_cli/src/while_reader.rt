//! Reads the text of a while program's file, and answers on it.

ghost use Rattle.std.specs.Prelude.{⊤};
ghost use Rattle.while_answer.specs.while_text.Reading.{Source};
ghost use Rattle.while_answer.specs.while_text.Views.{source_of};
ghost use Rattle.koat_cli.specs.WhileTasks.{task_answers};
ghost use Rattle.koat_cli.specs.WhileTexts.{while_programs};

use crate::executions::{executions, translation};
use crate::while_task::WhileTask;
use call_plans::{FileCommand, Read, Reader, Status, StatusText};
use model::Memory;
use std::alloc::Global;
use while_answer::{Whole, read_while, refusal_text};

/// The reader of while programs, each of at most 4,194,304 bytes.
#[derive(Drop)]
pub(crate) struct WhilePrograms {
    /// What the command does with the program.
    pub(crate) task: WhileTask,
}

impl Reader for WhilePrograms {
    type Meaning = Whole;

    ghost Plain = { Source };

    ghost kind = { λ _. while_programs };

    ghost plain = { source_of };

    ghost ready = { λ _. ⊤ };

    ghost answers = { λ reader. task_answers reader.task };

    fn limit(&self) -> u64 {
        4_194_304
    }

    fn refusal_status(&self) -> Status {
        Status::ProgramRefused
    }

    fn too_long(&self) -> &'static [u8] {
        b"program refused: too long\n"
    }

    fn read(&self, alloc: Global, bytes: &[u8]) -> Result<Read<Whole>, Memory> {
        match read_while(alloc, bytes) {
            Ok(program) => Ok(Read::Meaning(program)),
            Err(error) => Ok(Read::Refusal(refusal_text(alloc, &error)?)),
        }
    }
}

impl FileCommand for WhilePrograms {
    fn answer(&self, alloc: Global, meaning: &Whole) -> Result<StatusText, Memory> {
        match self.task {
            WhileTask::Executions(pivots) => executions(alloc, meaning, pivots),
            WhileTask::Translate => translation(alloc, meaning),
        }
    }
}
