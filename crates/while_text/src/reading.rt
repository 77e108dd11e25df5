//! Reads a while program from its text.

ghost use Rattle.std.specs.Prelude.{◌≡◌, length, map, IfOk};
ghost use Rattle.its_model.specs.Views.{name_of};
ghost use Rattle.while_tree.specs.Readable.{IsReadable};
ghost use Rattle.while_tree.specs.Views.{statements_of};
ghost use Rattle.text_grammar.specs.text_core.Reading.{answer};
ghost use Rattle.text_grammar.specs.Results.{AgreesWith};
ghost use Rattle.text_grammar.specs.Texts.{reader};
ghost use Rattle.while_text.specs.Lexing.{tokens};
ghost use Rattle.while_text.specs.Reading.{while_text};
ghost use Rattle.while_text.specs.Results.{Answers};
ghost use Rattle.while_text.specs.Views.{source_of, refusal_in};

use crate::error::WhileError;
use crate::grammar::{CLASSES, ROUNDS, WHILE_GRAMMAR};
use crate::lexer::WhileLexer;
use crate::text::WhileReading;
use std::alloc::Global;
use text_grammar::{OneMode, Tables, TokenStream, read};
use while_tree::Whole;

/// Reads a program of the while language, as `docs/while.md` defines it.
///
/// # Errors
///
/// The refusal at the least position is reported; of several at one position, the one that comes first here.
/// `NotAscii` is at a byte over 127 where no token can follow. `Syntax` is at the first token that can't follow, or at
/// the text's length if it ends too early. `NumberTooLarge` is at a number over 2^63-1, and at the last byte of a value
/// or of an atom with a form whose coefficient is too large; the forms of an atom are its own and those of its
/// negations. `UnknownName` is at a name that is no input, `RepeatedName` at an input that occurs before. `Limit` is at
/// a name of more than 256 bytes, at token 1,025 of a value or of one side of an atom, at the last byte of a value or
/// of an atom with a form of more than 64 terms or of a degree over 8, at atom 65 of a test, at input 33, at the `{` of
/// level 65, and at the statement whose rules pass 1,000. `Memory` comes where memory ran out.
pub fn read_while(alloc: Global, bytes: &[u8]) -> Result<Whole, WhileError>
    ensures answer { Answers bytes.now result }
    ensures readable { IfOk result (λ w. IsReadable (map name_of w.names.items) (statements_of w.body.items)) }
{
    judge(alloc, bytes)
}

// The answer to a text: its program, or its first fault.
fn judge(alloc: Global, bytes: &[u8]) -> Result<Whole, WhileError>
    ensures { AgreesWith source_of refusal_in (answer (reader (while_text bytes.now)) (length bytes.now) (tokens bytes.now))
        result }
{
    let tables = Tables::new(alloc, &WHILE_GRAMMAR, CLASSES, ROUNDS)?;
    let lexer = WhileLexer { len: bytes.len() };
    let cut = TokenStream::new(lexer, OneMode::Plain, bytes);
    let text = WhileReading::new(alloc, bytes);
    match read(alloc, tables, text, cut, bytes.len() as u64) {
        Ok(whole) => Ok(whole),
        Err(refusal) => Err(WhileError::from(refusal)),
    }
}
