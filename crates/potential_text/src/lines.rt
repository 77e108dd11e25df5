//! Lines as far as they were read.

ghost use Rattle.std.specs.Prelude.{◌≡◌, ◌||◌, is_some, false, IfOk, OnOk};
ghost use Rattle.text_grammar.specs.Marks.{fault_of};
ghost use Rattle.potential_text.specs.Drafts as drafts;
ghost use Rattle.potential_text.specs.Faults as faults;
ghost use Rattle.potential_text.specs.SymbolNames.{names_in};
ghost use Rattle.potential_text.specs.Reading.{progress, read_piece};
ghost use Rattle.potential_text.specs.Views.{draft_of, progress_of};

use crate::draft::Draft;
use crate::faults::{fault_at, fault_of_piece};
use crate::kind::{LineKind, Part};
use crate::names::SymbolNames;
use crate::piece::Piece;
use std::alloc::{AllocError, Global};
use text_grammar::{Fault, Token};

/// Lines of one part, as far as they were read, and whether there was a fault.
#[derive(Drop)]
pub struct LinesReading<'a> {
    alloc: Global,
    pub(crate) part: Part,
    pub(crate) names: SymbolNames<'a>,
    pub(crate) text: &'a [u8],
    pub(crate) draft: Draft,
    pub(crate) broken: bool,
}

// The fault of a kind at a position, unless there was one before.
fn shown_fault(broken: bool, kind: Option<LineKind>, at: u64) -> Option<Fault<LineKind>>
    ensures { fault_of result ≡ faults.shown_at broken kind at }
{
    if broken { None } else { fault_at(kind, at) }
}

// Whether there was a fault before, or a piece has one.
fn breaks(broken: bool, kind: Option<LineKind>) -> bool
    ensures { result ≡ (broken || is_some kind) }
{
    broken || kind.is_some()
}

impl<'a> LinesReading<'a> {
    /// Nothing was read.
    pub fn new(
        alloc: Global,
        part: Part,
        names: SymbolNames<'a>,
        text: &'a [u8],
    ) -> LinesReading<'a>
        ensures part { result.part ≡ part }
        ensures names { names_in result.names ≡ names_in names.entry }
        ensures text { result.text.now ≡ text.now }
        ensures begun { progress_of result ≡ progress drafts.begun false }
    {
        LinesReading {
            alloc,
            part,
            names,
            text,
            draft: Draft::new(alloc),
            broken: false,
        }
    }

    /// Does the action of a mark.
    ///
    /// # Errors
    ///
    /// `AllocError` where an allocation fails.
    pub fn did(&mut self, mark: u32) -> Result<(), AllocError>
        ensures part { self.new.part ≡ self.old.part }
        ensures names { names_in self.new.names ≡ names_in self.old.names }
        ensures text { self.new.text.now ≡ self.old.text.now }
        ensures known { OnOk result (progress_of self.new
            ≡ progress (drafts.done mark (draft_of self.old.draft)) self.old.broken) }
    {
        self.draft.done(self.alloc, mark)
    }

    /// Reads a token and returns its fault, unless there was one before.
    ///
    /// # Errors
    ///
    /// `AllocError` where an allocation fails.
    pub fn take(&mut self, token: Token<Piece>) -> Result<Option<Fault<LineKind>>, AllocError>
        ensures part { self.new.part ≡ self.old.part }
        ensures names { names_in self.new.names ≡ names_in self.old.names }
        ensures text { self.new.text.now ≡ self.old.text.now }
        ensures known { OnOk result (progress_of self.new ≡ read_piece self.old.part (names_in self.old.names)
            self.old.text.now token.piece (progress_of self.old)) }
        ensures shown { IfOk result (λ shown. fault_of shown ≡ faults.shown_at self.old.broken
            (faults.fault_of_piece self.old.part (names_in self.old.names) self.old.text.now token.piece
            (draft_of self.old.draft)) token.at) }
    {
        let kind = fault_of_piece(&self.draft, self.part, &self.names, self.text, token.piece);
        let shown = shown_fault(self.broken, kind, token.at);
        self.draft.take(&self.names, self.text, token.piece)?;
        self.broken = breaks(self.broken, kind);
        Ok(shown)
    }
}
