//! Reads a lasso from its text.

ghost use Rattle.std.specs.Prelude.{◌≡◌, length};
ghost use Rattle.its_model.specs.Views.{program_of};
ghost use Rattle.text_grammar.specs.text_core.Reading.{answer};
ghost use Rattle.text_grammar.specs.Texts.{reader};
ghost use Rattle.text_grammar.specs.ByteTexts.{tokens};
ghost use Rattle.text_grammar.specs.Results.{AgreesWith};
ghost use Rattle.run_replay.specs.Views.{refusal_in};
ghost use Rattle.lasso_check.specs.Lassos.{Lasso as LassoOf};
ghost use Rattle.lasso_check.specs.Texts.{lassos_of};
ghost use Rattle.lasso_check.specs.Spelled.{IsTextWithin};
ghost use Rattle.lasso_check.specs.Views.{Answers, GivesBack, lasso_of};

use crate::file::Lasso;
use crate::grammar::{CLASSES, LASSO_GRAMMAR, ROUNDS};
use crate::text::State;
use its_model::Program;
use run_replay::RunTextError;
use std::alloc::Global;
use text_grammar::read_bytes;

/// Reads the lasso that a text represents, as a lasso of the given program.
///
/// The first line is `koat-lasso 1`. The second one is `start` with a value for each place of the start symbol. Then
/// come the lines of the stem, of which there may be none, a line `loop`, the lines of the turn, of which there is at
/// least one, and a line `end`. Each line of the stem and of the turn is `step` with the number of a rule and a value
/// for each of its free variables. One blank precedes each value, and each line ends with a line feed. Values are
/// decimal, with `-` before negative ones, and without leading zeros.
///
/// # Errors
///
/// The refusal at the least position is reported. `Syntax` is at the first byte that can't follow, or at the text's
/// length if it ends too early: so it is at the first byte of `end` where `loop` is missing or the turn is empty.
/// `NumberTooLarge` is at the first byte of a value over 2^63-1 in absolute value; `BadReference` at the first byte of
/// a number that no rule has; `ArityDiffers` at the line feed of a line with another number of values; `Limit` at the
/// `s` that begins a line behind 1,000,000 steps, those of the stem and of the turn together. `Memory` comes where
/// memory ran out.
pub fn read_lasso(alloc: Global, p: &Program, bytes: &[u8]) -> Result<Lasso, RunTextError>
    ensures answer { Answers (program_of p.now) bytes.now result }
    ensures complete { (l : LassoOf) → IsTextWithin (program_of p.now) bytes.now l → GivesBack l result }
{
    judge(alloc, p, bytes)
}

// The result of reading a text.
fn judge(alloc: Global, p: &Program, bytes: &[u8]) -> Result<Lasso, RunTextError>
    ensures { AgreesWith lasso_of refusal_in (answer (reader (lassos_of (program_of p.now))) (length bytes.now)
        (tokens bytes.now)) result }
{
    let (start, stem, turn) = (Vec::new(alloc), Vec::new(alloc), Vec::new(alloc));
    let text = State {
        program: p,
        file: Lasso { start, stem, turn },
        rule: 0,
        in_turn: false,
    };
    match read_bytes(alloc, &LASSO_GRAMMAR, CLASSES, ROUNDS, text, bytes) {
        Ok(file) => Ok(file),
        Err(refusal) => Err(RunTextError::from(refusal)),
    }
}
