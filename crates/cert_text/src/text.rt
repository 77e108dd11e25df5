//! Reads a proof file piece by piece, as a text of its grammar.

ghost use Rattle.std.specs.Prelude.{◌≡◌, ◌||◌, if◌then◌else◌, is_some, List, ◌∷◌, None, Option, IfOk, OnOk};
ghost use Rattle.its_model.specs.Views.{program_of};
ghost use Rattle.cert_types.specs.AnswerViews.{file_of};
ghost use Rattle.cert_types.specs.cert_rules.Gaps.{ProofFile as FileOf};
ghost use Rattle.text_grammar.specs.Folds.{state};
ghost use Rattle.text_grammar.specs.Grammars.{Event, Read};
ghost use Rattle.text_grammar.specs.Marks.{fault_of, token_of};
ghost use Rattle.text_grammar.specs.Texts.{first_shown};
ghost use Rattle.cert_text.specs.ParsedSoFar.{progress_of};
ghost use Rattle.cert_text.specs.Reading.{proof_fold, proofs_of};

use crate::parsed_so_far::ParsedSoFar;
use cert_lexer::{Piece, ProofKind, class_of};
use cert_types::ProofFile;
use its_model::Program;
use std::alloc::{AllocError, Global};
use text_grammar::{Fault, Text, Token};

/// A proof file of a program, as far as it was read, and whether there was a fault.
#[derive(Drop)]
pub struct ProofReading<'a> {
    program: &'a Program,
    pub(crate) kept: ParsedSoFar,
    pub(crate) broken: bool,
}

impl<'a> ProofReading<'a> {
    /// The state in which nothing was read.
    pub fn new(alloc: Global, program: &'a Program) -> ProofReading<'a>
        ensures program { result.program.now ≡ program.now }
        ensures begun { progress_of result ≡ (proof_fold (program_of program.now)).begun }
    {
        ProofReading {
            program,
            kept: ParsedSoFar::new(alloc),
            broken: false,
        }
    }
}

// The fault of a piece, if there was no fault before.
fn unless(broken: bool, first_refusal: Option<Fault<ProofKind>>) -> Option<Fault<ProofKind>>
    ensures { fault_of result ≡ (if broken then None else fault_of first_refusal) }
{
    if broken { None } else { first_refusal }
}

// Whether there was a fault before, or a piece has one.
fn breaks(broken: bool, first_refusal: Option<Fault<ProofKind>>) -> bool
    ensures { result ≡ (broken || is_some first_refusal) }
{
    broken || first_refusal.is_some()
}

impl<'a> Text for ProofReading<'a> {
    type Piece = Piece;

    type Kind = ProofKind;

    type Made = ProofFile;

    ghost Tree = { FileOf };

    ghost text_of = { λ s. proofs_of (program_of s.program.now) };

    ghost Knows = { λ s es. progress_of s ≡ state (proof_fold (program_of s.program.now)) es };

    ghost Makes = { λ made t. file_of made ≡ t };

    fn class(&self, piece: Piece) -> u32 {
        class_of(piece)
    }

    fn did(&mut self, mark: u32) -> Result<(), AllocError> {
        self.kept.done(mark)
    }

    fn take(&mut self, token: Token<Piece>) -> Result<Option<Fault<ProofKind>>, AllocError>
        ensures same { proofs_of (program_of self.new.program.now) ≡ proofs_of (program_of self.old.program.now) }
        ensures known { OnOk result ((es : List (Event Piece))
            → progress_of self.old ≡ state (proof_fold (program_of self.old.program.now)) es
            → progress_of self.new ≡ state (proof_fold (program_of self.new.program.now)) (Read token.piece ∷ es)) }
        ensures shown { IfOk result (λ shown. (es : List (Event Piece))
            → progress_of self.old ≡ state (proof_fold (program_of self.old.program.now)) es
            → fault_of shown ≡ first_shown (proofs_of (program_of self.old.program.now)) None
            ((proofs_of (program_of self.old.program.now)).faults es (token_of token))) }
    {
        let first_refusal = self.kept.read(self.program, token.piece, token.at)?;
        let shown = unless(self.broken, first_refusal);
        self.broken = breaks(self.broken, first_refusal);
        Ok(shown)
    }

    fn floor(&self, at: u64) -> u64 {
        if self.broken { at } else { 0 }
    }

    fn number(&self, kind: ProofKind) -> u32 {
        match kind {
            ProofKind::Syntax => 1,
            ProofKind::NumberTooLarge => 2,
            ProofKind::TooDeep => 3,
            ProofKind::BadReference => 4,
            ProofKind::Limit => 5,
        }
    }

    fn stop_kind(&self, piece: Option<Piece>) -> ProofKind
        ensures { result ≡ (proofs_of (program_of self.now.program.now)).stop_kind piece }
    {
        let _piece = piece;
        ProofKind::Syntax
    }

    fn finish(self) -> Result<ProofFile, AllocError> {
        let kept = self.kept;
        Ok(ProofFile {
            lemmas: kept.lemmas,
            gaps: kept.gaps,
        })
    }
}
