//! Reads a run from its text.

ghost use Rattle.std.specs.Prelude.{◌≡◌, length};
ghost use Rattle.its_model.specs.Views.{program_of};
ghost use Rattle.text_grammar.specs.text_core.Reading.{answer};
ghost use Rattle.text_grammar.specs.Texts.{reader};
ghost use Rattle.text_grammar.specs.ByteTexts.{tokens};
ghost use Rattle.text_grammar.specs.Results.{AgreesWith};
ghost use Rattle.run_replay.specs.Runs.{Run};
ghost use Rattle.run_replay.specs.Texts.{runs_of};
ghost use Rattle.run_replay.specs.Spelled.{IsTextWithin};
ghost use Rattle.run_replay.specs.Views.{Answers, GivesBack, refusal_in, run_of};

use crate::error::RunTextError;
use crate::file::RunFile;
use crate::grammar::{CLASSES, ROUNDS, RUN_GRAMMAR};
use crate::text::State;
use its_model::Program;
use std::alloc::Global;
use text_grammar::read_bytes;

/// Reads the run whose text this is, as a run of the given program.
///
/// The first line is `koat-run 1`. The second one is `start` with a value for each place of the start symbol. Then come
/// any number of lines `step`, each with the number of a rule and a value for each of its free variables, and a line
/// `end`. One blank precedes each value, and each line ends with a line feed. Values are decimal, with `-` before
/// negative ones, and without leading zeros.
///
/// # Errors
///
/// The refusal at the least position is reported. `Syntax` is at the first byte that can't follow, or at the text's
/// length if it ends too early; `NumberTooLarge` at the first byte of a value over 2^63-1 in absolute value;
/// `BadReference` at the first byte of a number that no rule has; `ArityDiffers` at the line feed of a line with a
/// wrong number of values; `Limit` at the `s` that begins a line after 1,000,000 steps. `Memory` is returned if memory
/// ran out.
pub fn read_run(alloc: Global, p: &Program, bytes: &[u8]) -> Result<RunFile, RunTextError>
    ensures answer { Answers (program_of p.now) bytes.now result }
    ensures complete { (r : Run) → IsTextWithin (program_of p.now) bytes.now r → GivesBack r result }
{
    judge(alloc, p, bytes)
}

// The answer for a text.
fn judge(alloc: Global, p: &Program, bytes: &[u8]) -> Result<RunFile, RunTextError>
    ensures { AgreesWith run_of refusal_in (answer (reader (runs_of (program_of p.now))) (length bytes.now)
        (tokens bytes.now)) result }
{
    let (start, steps) = (Vec::new(alloc), Vec::new(alloc));
    let text = State {
        program: p,
        file: RunFile { start, steps },
        rule: 0,
    };
    match read_bytes(alloc, &RUN_GRAMMAR, CLASSES, ROUNDS, text, bytes) {
        Ok(file) => Ok(file),
        Err(refusal) => Err(RunTextError::from(refusal)),
    }
}
