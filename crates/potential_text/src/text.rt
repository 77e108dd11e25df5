//! Lines of lemmas and of claims as texts of their grammar.

ghost use Rattle.std.specs.Prelude.{◌≡◌, List, [], ◌∷◌, map, false, None, IfOk, OnOk};
ghost use Rattle.potential_types.specs.potential_nodes.SignedNodes.{SignedLemma as LemmaOf};
ghost use Rattle.potential_types.specs.Views.{lemma_of};
ghost use Rattle.claim_types.specs.program_claims.Claims.{Claim as ClaimOf};
ghost use Rattle.claim_types.specs.Views.{claims_of};
ghost use Rattle.text_grammar.specs.Folds.{state};
ghost use Rattle.text_grammar.specs.Grammars.{Event, Read};
ghost use Rattle.text_grammar.specs.Marks.{fault_of, token_of};
ghost use Rattle.text_grammar.specs.Texts.{first_shown};
ghost use Rattle.potential_text.specs.declared.kind.Part.TheVariants.{Lemmas, Claims};
ghost use Rattle.potential_text.specs.Drafts.{begun};
ghost use Rattle.potential_text.specs.Reading.{claims_in, lemmas_in, line_fold, lines_of, progress};
ghost use Rattle.potential_text.specs.SymbolNames.{names_in};
ghost use Rattle.potential_text.specs.Views.{progress_of};

use crate::classes::class_of;
use crate::faults::number_of;
use crate::kind::{LineKind, Part};
use crate::lines::LinesReading;
use crate::names::SymbolNames;
use crate::piece::Piece;
use claim_types::Claim;
use potential_types::SignedLemma;
use std::alloc::{AllocError, Global};
use text_grammar::{Fault, Text, Token};

/// Lines of lemmas, as far as they were read.
#[derive(Drop)]
pub struct LemmasReading<'a> {
    pub(crate) lines: LinesReading<'a>,
}

/// Lines of claims, as far as they were read.
#[derive(Drop)]
pub struct ClaimsReading<'a> {
    pub(crate) lines: LinesReading<'a>,
}

impl<'a> LemmasReading<'a> {
    /// Nothing was read.
    pub fn new(alloc: Global, names: SymbolNames<'a>, text: &'a [u8]) -> LemmasReading<'a>
        ensures part { result.lines.part ≡ Lemmas }
        ensures names { names_in result.lines.names ≡ names_in names.entry }
        ensures text { result.lines.text.now ≡ text.now }
        ensures begun { progress_of result.lines ≡ progress begun false }
    {
        LemmasReading {
            lines: LinesReading::new(alloc, Part::Lemmas, names, text),
        }
    }
}

impl<'a> ClaimsReading<'a> {
    /// Nothing was read.
    pub fn new(alloc: Global, text: &'a [u8]) -> ClaimsReading<'a>
        ensures part { result.lines.part ≡ Claims }
        ensures names { names_in result.lines.names ≡ [] }
        ensures text { result.lines.text.now ≡ text.now }
        ensures begun { progress_of result.lines ≡ progress begun false }
    {
        ClaimsReading {
            lines: LinesReading::new(alloc, Part::Claims, SymbolNames::none(alloc), text),
        }
    }
}

impl<'a> Text for LemmasReading<'a> {
    type Piece = Piece;

    type Kind = LineKind;

    type Made = Vec<SignedLemma>;

    ghost Tree = { List LemmaOf };

    ghost text_of = { λ s. lines_of lemmas_in s.lines.part (names_in s.lines.names) s.lines.text.now };

    ghost Knows = { λ s es. progress_of s.lines
        ≡ state (line_fold lemmas_in s.lines.part (names_in s.lines.names) s.lines.text.now) es };

    ghost Makes = { λ made t. map lemma_of made.items ≡ t };

    fn class(&self, piece: Piece) -> u32 {
        class_of(piece.sort)
    }

    fn did(&mut self, mark: u32) -> Result<(), AllocError> {
        self.lines.did(mark)
    }

    fn take(&mut self, token: Token<Piece>) -> Result<Option<Fault<LineKind>>, AllocError>
        ensures same { lines_of lemmas_in self.new.lines.part (names_in self.new.lines.names) self.new.lines.text.now
            ≡ lines_of lemmas_in self.old.lines.part (names_in self.old.lines.names) self.old.lines.text.now }
        ensures known { OnOk result ((es : List (Event Piece)) → progress_of self.old.lines
            ≡ state (line_fold lemmas_in self.old.lines.part (names_in self.old.lines.names) self.old.lines.text.now) es
            → progress_of self.new.lines
            ≡ state (line_fold lemmas_in self.new.lines.part (names_in self.new.lines.names) self.new.lines.text.now)
            (Read token.piece ∷ es)) }
        ensures shown { IfOk result (λ shown. (es : List (Event Piece)) → progress_of self.old.lines
            ≡ state (line_fold lemmas_in self.old.lines.part (names_in self.old.lines.names) self.old.lines.text.now) es
            → fault_of shown ≡ first_shown
            (lines_of lemmas_in self.old.lines.part (names_in self.old.lines.names) self.old.lines.text.now) None
            ((lines_of lemmas_in self.old.lines.part (names_in self.old.lines.names) self.old.lines.text.now).faults es
            (token_of token))) }
    {
        self.lines.take(token)
    }

    fn floor(&self, at: u64) -> u64 {
        if self.lines.broken { at } else { 0 }
    }

    fn number(&self, kind: LineKind) -> u32 {
        number_of(kind)
    }

    fn stop_kind(&self, piece: Option<Piece>) -> LineKind
        ensures { result ≡ (lines_of lemmas_in self.now.lines.part (names_in self.now.lines.names)
            self.now.lines.text.now).stop_kind piece }
    {
        let _piece = piece;
        LineKind::Syntax
    }

    fn finish(self) -> Result<Vec<SignedLemma>, AllocError> {
        let lines = self.lines;
        let draft = lines.draft;
        Ok(draft.lemmas)
    }
}

impl<'a> Text for ClaimsReading<'a> {
    type Piece = Piece;

    type Kind = LineKind;

    type Made = Vec<Claim>;

    ghost Tree = { List ClaimOf };

    ghost text_of = { λ s. lines_of claims_in s.lines.part (names_in s.lines.names) s.lines.text.now };

    ghost Knows = { λ s es. progress_of s.lines
        ≡ state (line_fold claims_in s.lines.part (names_in s.lines.names) s.lines.text.now) es };

    ghost Makes = { λ made t. claims_of made.items ≡ t };

    fn class(&self, piece: Piece) -> u32 {
        class_of(piece.sort)
    }

    fn did(&mut self, mark: u32) -> Result<(), AllocError> {
        self.lines.did(mark)
    }

    fn take(&mut self, token: Token<Piece>) -> Result<Option<Fault<LineKind>>, AllocError>
        ensures same { lines_of claims_in self.new.lines.part (names_in self.new.lines.names) self.new.lines.text.now
            ≡ lines_of claims_in self.old.lines.part (names_in self.old.lines.names) self.old.lines.text.now }
        ensures known { OnOk result ((es : List (Event Piece)) → progress_of self.old.lines
            ≡ state (line_fold claims_in self.old.lines.part (names_in self.old.lines.names) self.old.lines.text.now) es
            → progress_of self.new.lines
            ≡ state (line_fold claims_in self.new.lines.part (names_in self.new.lines.names) self.new.lines.text.now)
            (Read token.piece ∷ es)) }
        ensures shown { IfOk result (λ shown. (es : List (Event Piece)) → progress_of self.old.lines
            ≡ state (line_fold claims_in self.old.lines.part (names_in self.old.lines.names) self.old.lines.text.now) es
            → fault_of shown ≡ first_shown
            (lines_of claims_in self.old.lines.part (names_in self.old.lines.names) self.old.lines.text.now) None
            ((lines_of claims_in self.old.lines.part (names_in self.old.lines.names) self.old.lines.text.now).faults es
            (token_of token))) }
    {
        self.lines.take(token)
    }

    fn floor(&self, at: u64) -> u64 {
        if self.lines.broken { at } else { 0 }
    }

    fn number(&self, kind: LineKind) -> u32 {
        number_of(kind)
    }

    fn stop_kind(&self, piece: Option<Piece>) -> LineKind
        ensures { result ≡ (lines_of claims_in self.now.lines.part (names_in self.now.lines.names)
            self.now.lines.text.now).stop_kind piece }
    {
        let _piece = piece;
        LineKind::Syntax
    }

    fn finish(self) -> Result<Vec<Claim>, AllocError> {
        let lines = self.lines;
        let draft = lines.draft;
        Ok(draft.claims)
    }
}
