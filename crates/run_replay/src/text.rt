//! Run files as texts in bytes: the state of the parser.

ghost use Rattle.its_model.specs.Views.{program_of};
ghost use Rattle.run_replay.specs.Runs.{Run};
ghost use Rattle.run_replay.specs.Texts.{State as StateOf, run_bytes};
ghost use Rattle.run_replay.specs.Views.{run_of, own_of as own_at};

use crate::faults::{STEP_LIMIT, is_no_rule, wanted};
use crate::file::RunFile;
use crate::grammar::LETTERS;
use crate::kind::RunKind;
use its_model::{Program, Step};
use std::alloc::AllocError;
use text_grammar::{ByteText, class_of};

/// The part of a run file of a program that has been read, and the number of the rule of its last line (0 before any
/// step).
#[derive(Drop)]
pub struct State<'a> {
    pub program: &'a Program,
    pub file: RunFile,
    pub rule: u128,
}

impl<'a> ByteText for State<'a> {
    type Kind = RunKind;

    type Made = RunFile;

    ghost Tree = { Run };

    ghost Own = { StateOf };

    ghost bytes_of = { λ s. run_bytes (program_of s.program.now) };

    ghost own_of = { own_at };

    ghost tree_in = { run_of };

    fn class(&self, byte: u8) -> u32 {
        class_of(&LETTERS, byte)
    }

    fn natural(&mut self, number: u128) -> Result<(), AllocError> {
        self.rule = number;
        Ok(())
    }

    fn signed(&mut self, number: i128) -> Result<(), AllocError> {
        let _number = number;
        Ok(())
    }

    fn line(&mut self, values: Vec<i128>) -> Result<(), AllocError> {
        if self.rule == 0 {
            self.file.start = values;
        } else {
            let rule = self.rule.min(u128::from(u32::MAX)) as u32;
            self.file.steps.push(Step { rule, free: values })?;
        }
        Ok(())
    }

    fn done(&mut self, mark: u32) -> Result<(), AllocError> {
        let _mark = mark;
        Ok(())
    }

    fn fault_of_natural(&self, number: u128) -> Option<RunKind> {
        if is_no_rule(self.program, number) {
            Some(RunKind::BadReference)
        } else {
            None
        }
    }

    fn fault_of_signed(&self, number: i128) -> Option<RunKind> {
        let _number = number;
        Some(RunKind::Syntax)
    }

    fn fault_of_line(&self, values: usize) -> Option<RunKind> {
        if values == wanted(self.program, self.rule) as usize {
            None
        } else {
            Some(RunKind::ArityDiffers)
        }
    }

    fn fault_of_byte(&self, byte: u8) -> Option<RunKind> {
        match byte {
            b's' if self.file.steps.len() >= STEP_LIMIT => Some(RunKind::Limit),
            _ => None,
        }
    }

    fn number(&self, kind: RunKind) -> u32 {
        match kind {
            RunKind::Syntax => 1,
            RunKind::NumberTooLarge => 2,
            RunKind::BadReference => 3,
            RunKind::ArityDiffers => 4,
            RunKind::Limit => 5,
        }
    }

    fn syntax(&self) -> RunKind {
        RunKind::Syntax
    }

    fn too_large(&self) -> RunKind {
        RunKind::NumberTooLarge
    }

    fn finish(self) -> Result<RunFile, AllocError> {
        Ok(self.file)
    }
}
