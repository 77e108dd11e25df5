//! Reads a section piece by piece, as a text of its grammar.

ghost use Rattle.std.specs.Prelude.{◌≡◌, ◌||◌, is_some, List, ◌∷◌, None, IfOk, OnOk};
ghost use Rattle.its_model.specs.Views.{program_of};
ghost use Rattle.refined_programs.specs.Annotated.{Section as SectionOf};
ghost use Rattle.refined_programs.specs.Views.{annotated_of};
ghost use Rattle.text_grammar.specs.Folds.{state};
ghost use Rattle.text_grammar.specs.Grammars.{Event, Read};
ghost use Rattle.text_grammar.specs.Marks.{fault_of, token_of};
ghost use Rattle.text_grammar.specs.Texts.{first_shown};
ghost use Rattle.section_text.specs.Reading.{section_fold, sections_of};
ghost use Rattle.section_text.specs.Faults as faults;
ghost use Rattle.section_text.specs.Views.{progress_of};

use crate::classes::class_of;
use crate::draft::Draft;
use crate::faults::{fault_at, fault_of_piece, number_of};
use crate::kind::SectionKind;
use crate::piece::Piece;
use its_model::Program;
use refined_programs::Section;
use std::alloc::{AllocError, Global};
use text_grammar::{Fault, Text, Token};

/// A section of a program, as far as it was read, and whether there was a fault.
#[derive(Drop)]
pub struct SectionReading<'a> {
    alloc: Global,
    program: &'a Program,
    text: &'a [u8],
    pub(crate) draft: Draft<'a>,
    pub(crate) broken: bool,
}

// The fault of a kind at a position, if there was no fault before.
fn shown_fault(broken: bool, kind: Option<SectionKind>, at: u64) -> Option<Fault<SectionKind>>
    ensures { fault_of result ≡ faults.shown_at broken kind at }
{
    if broken { None } else { fault_at(kind, at) }
}

// Whether there was a fault before, or a piece has one.
fn breaks(broken: bool, kind: Option<SectionKind>) -> bool
    ensures { result ≡ (broken || is_some kind) }
{
    broken || kind.is_some()
}

impl<'a> SectionReading<'a> {
    /// The progress in which nothing was read.
    pub fn new(alloc: Global, program: &'a Program, text: &'a [u8]) -> SectionReading<'a>
        ensures program { result.program.now ≡ program.now }
        ensures text { result.text.now ≡ text.now }
        ensures begun { progress_of result ≡ (section_fold (program_of program.now) text.now).begun }
    {
        SectionReading {
            alloc,
            program,
            text,
            draft: Draft::new(alloc),
            broken: false,
        }
    }
}

impl<'a> Text for SectionReading<'a> {
    type Piece = Piece;

    type Kind = SectionKind;

    type Made = Section;

    ghost Tree = { SectionOf };

    ghost text_of = { λ s. sections_of (program_of s.program.now) s.text.now };

    ghost Knows = { λ s es. progress_of s ≡ state (section_fold (program_of s.program.now) s.text.now) es };

    ghost Makes = { λ made t. annotated_of made ≡ t };

    fn class(&self, piece: Piece) -> u32 {
        class_of(piece.sort)
    }

    fn did(&mut self, mark: u32) -> Result<(), AllocError> {
        self.draft.done(self.alloc, mark)
    }

    fn take(&mut self, token: Token<Piece>) -> Result<Option<Fault<SectionKind>>, AllocError>
        ensures same { sections_of (program_of self.new.program.now) self.new.text.now
            ≡ sections_of (program_of self.old.program.now) self.old.text.now }
        ensures known { OnOk result ((es : List (Event Piece))
            → progress_of self.old ≡ state (section_fold (program_of self.old.program.now) self.old.text.now) es
            → progress_of self.new
            ≡ state (section_fold (program_of self.new.program.now) self.new.text.now) (Read token.piece ∷ es)) }
        ensures shown { IfOk result (λ shown. (es : List (Event Piece))
            → progress_of self.old ≡ state (section_fold (program_of self.old.program.now) self.old.text.now) es
            → fault_of shown ≡ first_shown (sections_of (program_of self.old.program.now) self.old.text.now) None
            ((sections_of (program_of self.old.program.now) self.old.text.now).faults es (token_of token))) }
    {
        let kind = fault_of_piece(&self.draft, self.program, self.text, token.piece);
        let shown = shown_fault(self.broken, kind, token.at);
        self.draft
            .take(self.alloc, self.program, self.text, token.piece)?;
        self.broken = breaks(self.broken, kind);
        Ok(shown)
    }

    fn floor(&self, at: u64) -> u64 {
        if self.broken { at } else { 0 }
    }

    fn number(&self, kind: SectionKind) -> u32 {
        number_of(kind)
    }

    fn stop_kind(&self, piece: Option<Piece>) -> SectionKind
        ensures { result ≡ (sections_of (program_of self.now.program.now) self.now.text.now).stop_kind piece }
    {
        let _piece = piece;
        SectionKind::Syntax
    }

    fn finish(self) -> Result<Section, AllocError> {
        let draft = self.draft;
        Ok(Section {
            copies: draft.copies,
            branches: draft.branches,
        })
    }
}
