//! Lasso files as texts in bytes: the parser state.

ghost use Rattle.its_model.specs.Views.{program_of};
ghost use Rattle.lasso_check.specs.Lassos.{Lasso as LassoOf};
ghost use Rattle.lasso_check.specs.Texts.{State as StateOf, lasso_bytes};
ghost use Rattle.lasso_check.specs.Views.{lasso_of, own_of as own_at};

use crate::file::Lasso;
use crate::grammar::LETTERS;
use its_model::{Program, Step};
use run_replay::{RunKind, STEP_LIMIT, is_no_rule, wanted};
use std::alloc::AllocError;
use text_grammar::{ByteText, class_of};

/// The parser state: a lasso of a program, as far as it has been read; the number of the last line's rule, 0 before the
/// first step; and whether the line `loop` has been read.
#[derive(Drop)]
pub struct State<'a> {
    pub program: &'a Program,
    pub file: Lasso,
    pub rule: u128,
    pub in_turn: bool,
}

impl<'a> ByteText for State<'a> {
    type Kind = RunKind;

    type Made = Lasso;

    ghost Tree = { LassoOf };

    ghost Own = { StateOf };

    ghost bytes_of = { λ s. lasso_bytes (program_of s.program.now) };

    ghost own_of = { own_at };

    ghost tree_in = { lasso_of };

    fn class(&self, byte: u8) -> u32 {
        class_of(&LETTERS, byte)
    }

    fn natural(&mut self, number: u128) -> Result<(), AllocError> {
        self.rule = number;
        Ok(())
    }

    fn signed(&mut self, number: i128) -> Result<(), AllocError> {
        let _number = number;
        Ok(())
    }

    fn line(&mut self, values: Vec<i128>) -> Result<(), AllocError> {
        if self.rule == 0 {
            self.file.start = values;
            return Ok(());
        }
        let rule = self.rule.min(u128::from(u32::MAX)) as u32;
        let step = Step { rule, free: values };
        if self.in_turn {
            self.file.turn.push(step)?;
        } else {
            self.file.stem.push(step)?;
        }
        Ok(())
    }

    fn done(&mut self, mark: u32) -> Result<(), AllocError> {
        let _mark = mark;
        self.in_turn = true;
        Ok(())
    }

    fn fault_of_natural(&self, number: u128) -> Option<RunKind> {
        if is_no_rule(self.program, number) {
            Some(RunKind::BadReference)
        } else {
            None
        }
    }

    fn fault_of_signed(&self, number: i128) -> Option<RunKind> {
        let _number = number;
        Some(RunKind::Syntax)
    }

    fn fault_of_line(&self, values: usize) -> Option<RunKind> {
        if values == wanted(self.program, self.rule) as usize {
            None
        } else {
            Some(RunKind::ArityDiffers)
        }
    }

    fn fault_of_byte(&self, byte: u8) -> Option<RunKind> {
        match byte {
            b's' if self.file.stem.len() + self.file.turn.len() >= STEP_LIMIT => {
                Some(RunKind::Limit)
            }
            _ => None,
        }
    }

    fn number(&self, kind: RunKind) -> u32 {
        match kind {
            RunKind::Syntax => 1,
            RunKind::NumberTooLarge => 2,
            RunKind::BadReference => 3,
            RunKind::ArityDiffers => 4,
            RunKind::Limit => 5,
        }
    }

    fn syntax(&self) -> RunKind {
        RunKind::Syntax
    }

    fn too_large(&self) -> RunKind {
        RunKind::NumberTooLarge
    }

    fn finish(self) -> Result<Lasso, AllocError> {
        Ok(self.file)
    }
}
