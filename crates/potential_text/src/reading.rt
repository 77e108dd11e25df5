//! Reads lemmas and claims from their texts.

ghost use Rattle.std.specs.Prelude.{◌≡◌, length, map};
ghost use Rattle.its_model.specs.Views.{program_of};
ghost use Rattle.potential_types.specs.Views.{lemma_of};
ghost use Rattle.claim_types.specs.Views.{claims_of};
ghost use Rattle.text_grammar.specs.text_core.Names.{AreDistinct};
ghost use Rattle.text_grammar.specs.text_core.Reading.{answer};
ghost use Rattle.text_grammar.specs.Results.{AgreesWith};
ghost use Rattle.text_grammar.specs.Texts.{reader};
ghost use Rattle.potential_text.specs.Lexing.{tokens};
ghost use Rattle.potential_text.specs.Reading.{lemma_texts, claim_texts};
ghost use Rattle.potential_text.specs.Refusals.{refusal_in};
ghost use Rattle.potential_text.specs.Results.{LemmaAnswers, ClaimAnswers};
ghost use Rattle.potential_text.specs.SymbolNames.{symbol_names};

use crate::error::PotentialTextError;
use crate::grammar::{CLASSES, LINE_GRAMMAR, ROUNDS};
use crate::kind::Part;
use crate::lexer::LineLexer;
use crate::lines::LinesReading;
use crate::names::SymbolNames;
use crate::text::{ClaimsReading, LemmasReading};
use claim_types::Claim;
use its_model::Program;
use potential_types::SignedLemma;
use std::alloc::Global;
use text_grammar::{OneMode, Tables, TokenStream, read as read_tokens};

/// Reads lines `signed`, each with a lemma over a program, as `docs/proof-format.md` defines them.
///
/// # Errors
///
/// The refusal at the least position is the answer, and of those at one position the one that comes first here.
/// `Syntax` is at the first token that can't follow, or at the text's length if it ends too early, and at the word
/// `claim` of a line. `NumberTooLarge` is at a number over its limit: 2^32-1 of rules, places, facts, rows and variables,
/// 2^56 of other numbers of a lemma, and in a bound 2^64-1 of bases and 2^127-1 of constants and divisors. `TooDeep` is
/// at a part of a bound at level 201. `BadReference` is at a name that no symbol has, and at the number 0 of a row or of
/// a variable. `Limit` is at the word that begins line 100,001, and at the token with which a bound has more than 4,096
/// nodes. `Memory` comes where memory ran out.
pub fn read_signed(
    alloc: Global,
    program: &Program,
    bytes: &[u8],
) -> Result<Vec<SignedLemma>, PotentialTextError>
    requires { AreDistinct (symbol_names (program_of program.now)) }
    ensures { LemmaAnswers (symbol_names (program_of program.now)) bytes.now result }
{
    judge_lemmas(alloc, program, bytes)
}

// The answer to a text of lemmas.
fn judge_lemmas(
    alloc: Global,
    program: &Program,
    bytes: &[u8],
) -> Result<Vec<SignedLemma>, PotentialTextError>
    requires { AreDistinct (symbol_names (program_of program.now)) }
    ensures { AgreesWith (λ made. map lemma_of made.items) refusal_in
        (answer (reader (lemma_texts (symbol_names (program_of program.now)) bytes.now)) (length bytes.now)
        (tokens bytes.now)) result }
{
    let tables = Tables::new(alloc, &LINE_GRAMMAR, CLASSES, ROUNDS)?;
    let lexer = LineLexer { len: bytes.len() };
    let cut = TokenStream::new(lexer, OneMode::Plain, bytes);
    let names = SymbolNames::of(alloc, program)?;
    let text = LemmasReading::new(alloc, names, bytes);
    match read_tokens(alloc, tables, text, cut, bytes.len() as u64) {
        Ok(lemmas) => Ok(lemmas),
        Err(refusal) => Err(PotentialTextError::from(refusal)),
    }
}

/// Reads lines `claim`, each with a claim, as `docs/proof-format.md` defines them.
///
/// # Errors
///
/// As of lemmas; no claim names a symbol, and `Syntax` is at the word `signed` of a line.
pub fn read_claims(alloc: Global, bytes: &[u8]) -> Result<Vec<Claim>, PotentialTextError>
    ensures { ClaimAnswers bytes.now result }
{
    judge_claims(alloc, bytes)
}

// The answer to a text of claims.
fn judge_claims(alloc: Global, bytes: &[u8]) -> Result<Vec<Claim>, PotentialTextError>
    ensures { AgreesWith (λ made. claims_of made.items) refusal_in
        (answer (reader (claim_texts bytes.now)) (length bytes.now) (tokens bytes.now)) result }
{
    let tables = Tables::new(alloc, &LINE_GRAMMAR, CLASSES, ROUNDS)?;
    let lexer = LineLexer { len: bytes.len() };
    let cut = TokenStream::new(lexer, OneMode::Plain, bytes);
    let text = ClaimsReading::new(alloc, bytes);
    match read_tokens(alloc, tables, text, cut, bytes.len() as u64) {
        Ok(claims) => Ok(claims),
        Err(refusal) => Err(PotentialTextError::from(refusal)),
    }
}
