//! Reads a section from its text.

ghost use Rattle.std.specs.Prelude.{◌≡◌, length};
ghost use Rattle.its_model.specs.Views.{program_of};
ghost use Rattle.refined_programs.specs.Views.{annotated_of};
ghost use Rattle.text_grammar.specs.text_core.Reading.{answer};
ghost use Rattle.text_grammar.specs.Results.{AgreesWith};
ghost use Rattle.text_grammar.specs.Texts.{reader};
ghost use Rattle.section_text.specs.Lexing.{tokens};
ghost use Rattle.section_text.specs.Reading.{sections_of};
ghost use Rattle.section_text.specs.Refusals.{refusal_in};
ghost use Rattle.section_text.specs.Results.{Answers};

use crate::error::SectionTextError;
use crate::grammar::{CLASSES, ROUNDS, SECTION_GRAMMAR};
use crate::lexer::SectionLexer;
use crate::text::SectionReading;
use its_model::Program;
use refined_programs::Section;
use std::alloc::Global;
use text_grammar::{OneMode, Tables, TokenStream, read as read_tokens};

/// Reads a text as a section of a program, as `docs/proof-format.md` defines it.
///
/// # Errors
///
/// The refusal at the least position is reported, and of those at one position the one that comes first here. `Syntax`
/// is at the first token that can't follow, or at the text's length if it ends too early. `NumberTooLarge` is at a
/// number over 2^56. `TooDeep` is at the word that begins cases at level 65. `BadReference` is at a name that no symbol
/// or no copy has, at the name of a copy that an earlier one has, and at a number that no rule has. `Limit` is at the
/// word that begins copy 2,001 or branch 100,001, and at the name of a copy that has more than 256 bytes. `Memory`
/// comes where memory ran out.
pub fn read_section(
    alloc: Global,
    program: &Program,
    bytes: &[u8],
) -> Result<Section, SectionTextError>
    ensures { Answers (program_of program.now) bytes.now result }
{
    judge(alloc, program, bytes)
}

// The answer of reading a text.
fn judge(alloc: Global, program: &Program, bytes: &[u8]) -> Result<Section, SectionTextError>
    ensures { AgreesWith annotated_of refusal_in (answer (reader (sections_of (program_of program.now) bytes.now))
        (length bytes.now) (tokens bytes.now)) result }
{
    let tables = Tables::new(alloc, &SECTION_GRAMMAR, CLASSES, ROUNDS)?;
    let lexer = SectionLexer { len: bytes.len() };
    let cut = TokenStream::new(lexer, OneMode::Plain, bytes);
    let text = SectionReading::new(alloc, program, bytes);
    match read_tokens(alloc, tables, text, cut, bytes.len() as u64) {
        Ok(section) => Ok(section),
        Err(refusal) => Err(SectionTextError::from(refusal)),
    }
}
