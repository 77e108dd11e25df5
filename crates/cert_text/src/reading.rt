//! Reads a proof file from its text.

ghost use Rattle.std.specs.Prelude.{◌≡◌, ◌<◌, ◌^◌, length, IfOk, IsTrue};
ghost use Rattle.its_model.specs.Valid.{IsValid};
ghost use Rattle.its_model.specs.Views.{program_of};
ghost use Rattle.cert_types.specs.AnswerViews.{file_of};
ghost use Rattle.text_grammar.specs.text_core.Names.{AreDistinct};
ghost use Rattle.text_grammar.specs.text_core.Reading.{answer};
ghost use Rattle.text_grammar.specs.Results.{AgreesWith};
ghost use Rattle.text_grammar.specs.Texts.{reader};
ghost use Rattle.cert_lexer.specs.Lexing.{symbol_names, tokens};
ghost use Rattle.cert_text.specs.Reading.{proofs_of};
ghost use Rattle.cert_types.specs.cert_rules.Gaps.{ProofFile as FileOf};
ghost use Rattle.cert_text.specs.Refused.{Answers, GivesBack};
ghost use Rattle.cert_text.specs.Spelled.{IsTextWithin};
ghost use Rattle.cert_text.specs.StatedErrors.{refusal_in};

use crate::error::ProofTextError;
use crate::text::ProofReading;
use cert_lexer::{CLASSES, Mode, PROOF_GRAMMAR, ProofLexer, ROUNDS};
use cert_types::ProofFile;
use its_model::Program;
use std::alloc::Global;
use text_grammar::{Tables, TokenStream, read as read_tokens};

/// Reads a text as a proof file of a program, as `docs/proof-format.md` defines it.
///
/// # Errors
///
/// The refusal at the least position is reported, and of those at one position the one that comes first here. `Syntax`
/// is at the first token that can't follow, or at the text's length if it ends too early; at `cost` in a file whose
/// first line has the version 1, and at `end` in one with the version 2 that has no node on costs. `NumberTooLarge` is
/// at a number over 2^56 in absolute value, or over 2^45 in a gap. `TooDeep` is at a node at level 65, `BadReference`
/// at a number or a name that refers to nothing, such as a cited lemma that is no earlier one, and `Limit` at lemma
/// 100,001 or gap 1,001. In a bound `Syntax`, `NumberTooLarge` and `Limit` are where they are if the bound is read
/// alone, and a part at level 201 is `TooDeep` at its first byte. `Memory` comes where memory ran out.
pub fn read(alloc: Global, p: &Program, bytes: &[u8]) -> Result<ProofFile, ProofTextError>
    requires { IsValid (program_of p.now) }
    ensures answer { Answers (program_of p.now) bytes.now result }
    ensures complete { length (program_of p.now).symbols < 2 ^ 32 → (f : FileOf)
        → IsTextWithin (program_of p.now) bytes.now f → GivesBack f result }
    ensures spelled { length (program_of p.now).symbols < 2 ^ 32
        → IfOk result (λ file. IsTextWithin (program_of p.now) bytes.now (file_of file)) }
{
    judge(alloc, p, bytes)
}

// The answer of reading a text.
fn judge(alloc: Global, p: &Program, bytes: &[u8]) -> Result<ProofFile, ProofTextError>
    requires symbols { AreDistinct (symbol_names (program_of p.now)) }
    requires arguments { AreDistinct (program_of p.now).start_names }
    ensures { AgreesWith file_of refusal_in (answer (reader (proofs_of (program_of p.now))) (length bytes.now)
        (tokens (program_of p.now) bytes.now)) result }
{
    let tables = Tables::new(alloc, &PROOF_GRAMMAR, CLASSES, ROUNDS)?;
    let lexer = ProofLexer::new(alloc, p)?;
    let cut = TokenStream::new(lexer, Mode::Beginning, bytes);
    let text = ProofReading::new(alloc, p);
    match read_tokens(alloc, tables, text, cut, bytes.len() as u64) {
        Ok(file) => Ok(file),
        Err(refusal) => Err(ProofTextError::from(refusal)),
    }
}
