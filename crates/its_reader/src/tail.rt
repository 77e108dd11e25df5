//! The steps of parsing after the target of a rule.

ghost use Rattle.std.specs.Prelude.{◌≡◌, ◌&&◌, ◌||◌, not, IfOk};
ghost use Rattle.its_reader.specs.Views.{piece_of as plain_of, maybe_of};
ghost use Rattle.its_reader.specs.Tests as tests;
ghost use Rattle.its_reader.specs.StateSteps.{TailLeads};
ghost use Rattle.its_reader.specs.TailSteps.{WholeLeads, GuardIsEnded, SquareEnds, AtomTakes, TakesMaybe, TakesPiece};
ghost use Rattle.its_reader.specs.TailSteps.{StaysInGuard, guarding_if as plain_guarding, goes_on_in};
ghost use Rattle.expr_reader.specs.GuardParts.{is_read, piece_in};
ghost use Rattle.expr_reader.specs.GuardRepresentation.{Takes};
ghost use Rattle.expr_reader.specs.Variables.{names_in};
ghost use Rattle.expr_reader.specs.Views.{piece_of as inner_plain};

use crate::draft::{Draft, RuleDraft};
use crate::lookahead_right::is_modest;
use crate::parser_state::{GuardOpening, ParserState, SourceState, TailState};
use crate::piece::{Piece, inner_of, is_open_bracket_next};
use crate::room::has_room;
use expr_reader::{GuardState, Piece as Inner};
use model::Memory;
use std::alloc::{AllocError, Global};

impl<'a> Draft<'a> {
    /// The state after a piece after a target, given the piece after it. None where the piece can't follow.
    pub(crate) fn advance_in_tail(
        &mut self,
        alloc: Global,
        state: TailState,
        piece: Piece<'a>,
        behind: Option<Piece<'a>>,
    ) -> Result<Option<ParserState>, Memory>
        ensures { IfOk result (λ reached. TailLeads state self.old (plain_of piece.entry)
            (maybe_of behind.entry) reached self.new) }
    {
        match state {
            TailState::Targeted => self.behind_target(alloc, piece, behind),
            TailState::GuardMarked => self.behind_mark(alloc, piece, behind),
            TailState::SquareOpened => self.behind_square(alloc, piece, behind),
            TailState::Guarding(opening) => self.advance_in_guard(alloc, opening, piece, behind),
        }
    }

    fn behind_target(
        &mut self,
        alloc: Global,
        piece: Piece<'a>,
        behind: Option<Piece<'a>>,
    ) -> Result<Option<ParserState>, Memory>
        ensures { IfOk result (λ reached. TailLeads TailState.Targeted self.old (plain_of piece.entry)
            (maybe_of behind.entry) reached self.new) }
    {
        if piece.is_guard_mark() {
            return Ok(Some(ParserState::InTail(TailState::GuardMarked)));
        }
        if piece.is_square_open() {
            return Ok(Some(ParserState::InTail(TailState::SquareOpened)));
        }
        let reached = self.behind_rule(alloc, piece)?;
        Ok(reached)
    }

    // Reads a rule's source, the end of the section, or an atom.
    fn behind_mark(
        &mut self,
        alloc: Global,
        piece: Piece<'a>,
        behind: Option<Piece<'a>>,
    ) -> Result<Option<ParserState>, Memory>
        ensures { IfOk result (λ reached. TailLeads TailState.GuardMarked self.old (plain_of piece.entry)
            (maybe_of behind.entry) reached self.new) }
    {
        if ends_mark(piece, behind) {
            let ruled = self.behind_rule(alloc, piece)?;
            Ok(ruled)
        } else {
            let taken = self.take_atom(alloc, GuardOpening::Mark, piece, behind)?;
            Ok(taken)
        }
    }

    fn behind_square(
        &mut self,
        alloc: Global,
        piece: Piece<'a>,
        behind: Option<Piece<'a>>,
    ) -> Result<Option<ParserState>, Memory>
        ensures { IfOk result (λ reached. TailLeads TailState.SquareOpened self.old (plain_of piece.entry)
            (maybe_of behind.entry) reached self.new) }
    {
        if piece.is_square_close() {
            self.end_rule(alloc)?;
            Ok(Some(ParserState::InLeft(SourceState::AfterRule)))
        } else {
            let taken = self.take_atom(alloc, GuardOpening::Square, piece, behind)?;
            Ok(taken)
        }
    }

    // Ends the rule before the next rule's source, or before the end of the section.
    fn behind_rule(
        &mut self,
        alloc: Global,
        piece: Piece<'a>,
    ) -> Result<Option<ParserState>, Memory>
        ensures { IfOk result (λ reached. WholeLeads self.old (plain_of piece.entry) reached self.new) }
    {
        if leaves_rule(piece) {
            self.end_rule(alloc)?;
            Ok(self.begin_rule(piece))
        } else {
            Ok(None)
        }
    }

    // Reads a piece within a guard: after an atom a conjunction sign, or what follows the guard; elsewhere a piece that
    // continues the guard.
    fn advance_in_guard(
        &mut self,
        alloc: Global,
        opening: GuardOpening,
        piece: Piece<'a>,
        behind: Option<Piece<'a>>,
    ) -> Result<Option<ParserState>, Memory>
        ensures { IfOk result (λ reached. TailLeads (TailState.Guarding opening) self.old (plain_of piece.entry)
            (maybe_of behind.entry) reached self.new) }
    {
        if self.rule.guard_goes_on(piece) {
            let taken = self.take_atom(alloc, opening, piece, behind)?;
            return Ok(taken);
        }
        let reached = self.behind_atoms(alloc, opening, piece)?;
        Ok(reached)
    }

    // Reads the piece that follows a guard.
    fn behind_atoms(
        &mut self,
        alloc: Global,
        opening: GuardOpening,
        piece: Piece<'a>,
    ) -> Result<Option<ParserState>, Memory>
        ensures { IfOk result (λ reached. GuardIsEnded opening self.old (plain_of piece.entry) reached self.new) }
    {
        match opening {
            GuardOpening::Mark => {
                let ruled = self.behind_rule(alloc, piece)?;
                Ok(ruled)
            }
            GuardOpening::Square => {
                let shut = self.behind_squared(alloc, piece)?;
                Ok(shut)
            }
        }
    }

    fn behind_squared(
        &mut self,
        alloc: Global,
        piece: Piece<'a>,
    ) -> Result<Option<ParserState>, Memory>
        ensures { IfOk result (λ reached. SquareEnds self.old (plain_of piece.entry) reached self.new) }
    {
        if piece.is_square_close() {
            self.end_rule(alloc)?;
            Ok(Some(ParserState::InLeft(SourceState::AfterRule)))
        } else {
            Ok(None)
        }
    }

    // Reads a piece of a guard.
    fn take_atom(
        &mut self,
        alloc: Global,
        opening: GuardOpening,
        piece: Piece<'a>,
        behind: Option<Piece<'a>>,
    ) -> Result<Option<ParserState>, Memory>
        ensures { IfOk result (λ reached. AtomTakes opening self.old (plain_of piece.entry)
            (maybe_of behind.entry) reached self.new) }
    {
        let reached = self
            .rule
            .take_guard(alloc, opening, piece.inner(), inner_of(behind))?;
        Ok(reached)
    }
}

// Whether a piece ends the section, or is a rule's source.
fn leaves_rule(piece: Piece<'_>) -> bool
    ensures { result ≡ (tests.is_close_bracket (plain_of piece.entry) || tests.is_name (plain_of piece.entry)) }
{
    piece.is_close_bracket() || piece.is_name()
}

// Whether a piece after `:|:` ends the section, or is a rule's source.
fn ends_mark(piece: Piece<'_>, behind: Option<Piece<'_>>) -> bool
    ensures { result ≡ (tests.is_close_bracket (plain_of piece.entry)
        || (tests.is_name (plain_of piece.entry) && tests.is_open_bracket_next
        (maybe_of behind.entry))) }
{
    piece.is_close_bracket() || (piece.is_name() && is_open_bracket_next(behind))
}

impl<'a> RuleDraft<'a> {
    /// Whether an atom has been read.
    pub(crate) fn has_read_atom(&self) -> bool
        ensures { result ≡ is_read self.now.guard.state }
    {
        self.guard.state == GuardState::AtomRead
    }

    // Whether the guard doesn't end before a piece.
    fn guard_goes_on(&self, piece: Piece<'a>) -> bool
        ensures { result ≡ (not (is_read self.now.guard.state) || tests.is_conjunction (plain_of piece.entry)) }
    {
        !self.has_read_atom() || piece.is_conjunction()
    }

    // Whether a piece continues the expression of an atom.
    fn atom_goes_on(&self, piece: Inner<'a>) -> bool
        ensures { result ≡ goes_on_in self.now.guard (inner_plain piece.entry) }
    {
        !self.has_read_atom() && self.guard.expression.goes_on_with(piece)
    }

    fn take_guard(
        &mut self,
        alloc: Global,
        opening: GuardOpening,
        piece: Option<Inner<'a>>,
        behind: Option<Inner<'a>>,
    ) -> Result<Option<ParserState>, Memory>
        ensures takes { IfOk result (λ reached. TakesMaybe opening self.old (piece_in piece.entry)
            (piece_in behind.entry) reached self.new) }
        ensures stays { StaysInGuard self.old self.new }
    {
        match piece {
            Some(inner) => {
                let reached = self.take_inner_guard(alloc, opening, inner, behind)?;
                Ok(reached)
            }
            None => Ok(None),
        }
    }

    // Reads a piece of an expression within a guard; reading goes no further than a literal that is too large.
    fn take_inner_guard(
        &mut self,
        alloc: Global,
        opening: GuardOpening,
        piece: Inner<'a>,
        behind: Option<Inner<'a>>,
    ) -> Result<Option<ParserState>, Memory>
        ensures takes { IfOk result (λ reached. TakesPiece opening self.old (inner_plain piece.entry)
            (piece_in behind.entry) reached self.new) }
        ensures stays { StaysInGuard self.old self.new }
    {
        if !is_modest(piece) {
            let going = guarding_if(self.atom_goes_on(piece), opening);
            return Ok(going);
        }
        let taken = self.take_modest(alloc, piece, behind)?;
        let led = guarding_if(taken, opening);
        Ok(led)
    }

    fn take_modest(
        &mut self,
        alloc: Global,
        piece: Inner<'a>,
        behind: Option<Inner<'a>>,
    ) -> Result<bool, Memory>
        ensures takes { IfOk result (λ taken. Takes (names_in self.old.variables) self.old.guard
            (inner_plain piece.entry) (piece_in behind.entry) taken (names_in self.new.variables) self.new.guard) }
        ensures stays { StaysInGuard self.old self.new }
    {
        if has_room(&self.guard.expression, &self.variables) {
            self.guard.take(alloc, &mut self.variables, piece, behind)
        } else {
            Err(AllocError)
        }
    }
}

fn guarding_if(test: bool, opening: GuardOpening) -> Option<ParserState>
    ensures { result ≡ plain_guarding test opening }
{
    if test {
        Some(ParserState::InTail(TailState::Guarding(opening)))
    } else {
        None
    }
}
