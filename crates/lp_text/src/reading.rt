//! Reads a linear program from its text.

ghost use Rattle.std.specs.Prelude.{◌≡◌, ◌≤◌, length, IfOk};
ghost use Rattle.lp_builder.specs.simplex_core.Problem.{program_of, IsProper, table_size, widest};
ghost use Rattle.text_grammar.specs.text_core.Reading.{answer};
ghost use Rattle.text_grammar.specs.Texts.{reader};
ghost use Rattle.text_grammar.specs.ByteTexts.{tokens};
ghost use Rattle.text_grammar.specs.Results.{AgreesWith};
ghost use Rattle.lp_text.specs.Lps.{Lp};
ghost use Rattle.lp_text.specs.Texts.{lps};
ghost use Rattle.lp_text.specs.Spelled.{IsTextWithin, IsWithin};
ghost use Rattle.lp_text.specs.Views.{Answers, AnswersWritten, GivesBack, GivesProblem, lp_of, refusal_in};

use crate::error::LpTextError;
use crate::grammar::{CLASSES, LP_GRAMMAR, ROUNDS};
use crate::section::Section;
use crate::text::State;
use crate::written::WrittenLp;
use simplex_core::Problem;
use std::alloc::Global;
use text_grammar::read_bytes;

/// Reads the linear program that a text represents, as a problem that `solve` takes.
///
/// The first line is `koat-lp 1`, and the second one `cols` with the number of columns, from 1 to 64. Then come a line
/// `first` and a line `second`, each with a cost for each column, at most 64 lines `row`, each with a number for each
/// column, `=` and the right side, and a line `end`. One blank separates the words of a line, and each line ends with a
/// line feed. Numbers are decimal, with `-` before negative ones, and without leading zeros; costs have no sign. No
/// number is over 2^31-1 in absolute value. Numbers that are 0 aren't entries of the problem.
///
/// # Errors
///
/// The refusal at the least position is reported; of two at one position, the one that is named first here. `Syntax` is
/// at the first byte that can't follow, or at the text's length if it ends too early: a line with too few numbers has
/// it at its line feed or its `=`, and one with too many after the last one that it may have. `NumberTooLarge` is at
/// the first byte of a number over 2^31-1 in absolute value. `Limit` is at the number of columns if it isn't from 1 to
/// 64, and at the `r` that begins a line after 64 rows. `Memory` if an allocation fails.
pub fn read_lp(alloc: Global, bytes: &[u8]) -> Result<Problem, LpTextError>
    ensures answer { Answers bytes.now result }
    ensures complete { (p : Lp) → IsTextWithin bytes.now p → GivesProblem p result }
    ensures proper { IfOk result IsProper }
    ensures narrow { IfOk result (λ q. table_size (program_of q) ≤ widest) }
{
    match read_written(alloc, bytes) {
        Ok(written) => problem_of(alloc, &written),
        Err(error) => Err(error),
    }
}

// The problem of a linear program within the limits, or the error that memory ran out.
fn problem_of(alloc: Global, written: &WrittenLp) -> Result<Problem, LpTextError>
    requires { IsWithin (lp_of written.now) }
    ensures { GivesProblem (lp_of written.now) result }
{
    match written.to_problem(alloc) {
        Ok(problem) => Ok(problem),
        Err(_) => Err(LpTextError::Memory),
    }
}

/// Reads the linear program that a text represents, in its written form.
///
/// # Errors
///
/// The errors of `read_lp`.
pub fn read_written(alloc: Global, bytes: &[u8]) -> Result<WrittenLp, LpTextError>
    ensures answer { AnswersWritten bytes.now result }
    ensures complete { (p : Lp) → IsTextWithin bytes.now p → GivesBack p result }
{
    parse(alloc, bytes)
}

// The answer to a text.
fn parse(alloc: Global, bytes: &[u8]) -> Result<WrittenLp, LpTextError>
    ensures { AgreesWith lp_of refusal_in (answer (reader lps) (length bytes.now) (tokens bytes.now)) result }
{
    let (first, second) = (Vec::new(alloc), Vec::new(alloc));
    let (rows, numbers) = (Vec::new(alloc), Vec::new(alloc));
    let text = State {
        alloc,
        lp: WrittenLp {
            columns: 0,
            first,
            second,
            rows,
        },
        section: Section::Head,
        numbers,
    };
    match read_bytes(alloc, &LP_GRAMMAR, CLASSES, ROUNDS, text, bytes) {
        Ok(written) => Ok(written),
        Err(refusal) => Err(LpTextError::from(refusal)),
    }
}
