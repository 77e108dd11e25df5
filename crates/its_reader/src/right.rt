//! The steps of parsing from the arrow to the end of the target.

ghost use Rattle.std.specs.Prelude.{◌≡◌, Some, None, if◌then◌else◌, IfOk, OnOk, length, nat_lt, not, ◌==◌, ◌++◌, ◌∷◌};
ghost use Rattle.std.specs.Prelude.{[], slice_index};
ghost use Rattle.text_core.specs.Names.{position_of};
ghost use Rattle.its_text.specs.expr_text.Terms.{with_name};
ghost use Rattle.expr_reader.specs.Variables.{names_in};
ghost use Rattle.its_reader.specs.Views.{piece_of as plain_of};
ghost use Rattle.its_reader.specs.Places.{behind_wrap};
ghost use Rattle.its_reader.specs.StateSteps.{RightLeads, TargetNames, AfterRight};

use crate::draft::{Draft, RuleDraft};
use crate::parser_state::{ParserState, TailState, TargetState, Wrap};
use crate::piece::Piece;
use crate::symbols::{Symbols, to_u32};
use model::Memory;
use std::alloc::Global;

// A state within a right term, if a test passes.
fn leads_if(test: bool, behind: TargetState) -> Option<ParserState>
    ensures { result ≡ (if test then Some (ParserState.InRight behind) else None) }
{
    if test {
        Some(ParserState::InRight(behind))
    } else {
        None
    }
}

fn behind_right(wrap: Wrap) -> ParserState
    ensures { result ≡ behind_wrap wrap }
{
    match wrap {
        Wrap::InCom => ParserState::InRight(TargetState::TargetClosed),
        Wrap::Alone => ParserState::InTail(TailState::Targeted),
    }
}

impl<'a> Draft<'a> {
    /// The state after a piece from the arrow to the end of the target. None where the piece can't follow.
    pub(crate) fn advance_in_right(
        &mut self,
        alloc: Global,
        state: TargetState,
        piece: Piece<'a>,
    ) -> Result<Option<ParserState>, Memory>
        ensures { IfOk result (λ reached. RightLeads state self.old (plain_of piece.entry) reached self.new) }
    {
        match state {
            TargetState::Arrowed => Ok(self.behind_arrow(piece)),
            TargetState::ComNamed => Ok(leads_if(piece.is_open_bracket(), TargetState::ComOpened)),
            TargetState::ComOpened => Ok(self.behind_com(piece)),
            TargetState::TargetNamed(wrap) => {
                Ok(leads_if(piece.is_open_bracket(), TargetState::RightOpened(wrap)))
            }
            TargetState::RightOpened(wrap) => self.behind_right_bracket(alloc, wrap, piece),
            TargetState::Arguing(wrap) => self.within_argument(alloc, wrap, piece),
            TargetState::Argued(wrap) => self.behind_argument(wrap, piece),
            TargetState::TargetClosed => Ok(self.close_com(piece)),
        }
    }

    // Reads `Com_1`, or the target's name.
    fn behind_arrow(&mut self, piece: Piece<'a>) -> Option<ParserState>
        ensures { RightLeads TargetState.Arrowed self.old (plain_of piece.entry) result self.new }
    {
        if piece.is_word(b"Com_1") {
            Some(ParserState::InRight(TargetState::ComNamed))
        } else {
            self.name_target(Wrap::Alone, piece)
        }
    }

    fn behind_com(&mut self, piece: Piece<'a>) -> Option<ParserState>
        ensures { RightLeads TargetState.ComOpened self.old (plain_of piece.entry) result self.new }
    {
        self.name_target(Wrap::InCom, piece)
    }

    fn name_target(&mut self, wrap: Wrap, piece: Piece<'a>) -> Option<ParserState>
        ensures { TargetNames wrap self.old (plain_of piece.entry) result self.new }
    {
        match piece.word() {
            Some(name) => {
                self.rule.name = name;
                Some(ParserState::InRight(TargetState::TargetNamed(wrap)))
            }
            None => None,
        }
    }

    // Reads a right argument, or the end of a term without any.
    fn behind_right_bracket(
        &mut self,
        alloc: Global,
        wrap: Wrap,
        piece: Piece<'a>,
    ) -> Result<Option<ParserState>, Memory>
        ensures { IfOk result (λ reached. RightLeads (TargetState.RightOpened wrap) self.old
            (plain_of piece.entry) reached self.new) }
    {
        if piece.is_close_bracket() {
            self.close_target()?;
            Ok(Some(behind_right(wrap)))
        } else {
            let within = ParserState::InRight(TargetState::Arguing(wrap));
            let reached = self.take_expression(alloc, within, piece)?;
            Ok(reached)
        }
    }

    fn within_argument(
        &mut self,
        alloc: Global,
        wrap: Wrap,
        piece: Piece<'a>,
    ) -> Result<Option<ParserState>, Memory>
        ensures { IfOk result (λ reached. RightLeads (TargetState.Arguing wrap) self.old
            (plain_of piece.entry) reached self.new) }
    {
        let within = ParserState::InRight(TargetState::Arguing(wrap));
        let reached = self.take_expression(alloc, within, piece)?;
        Ok(reached)
    }

    fn behind_argument(
        &mut self,
        wrap: Wrap,
        piece: Piece<'a>,
    ) -> Result<Option<ParserState>, Memory>
        ensures { IfOk result (λ reached. RightLeads (TargetState.Argued wrap) self.old
            (plain_of piece.entry) reached self.new) }
    {
        if piece.is_close_bracket() {
            self.close_target()?;
            Ok(Some(behind_right(wrap)))
        } else {
            Ok(leads_if(piece.is_comma(), TargetState::Arguing(wrap)))
        }
    }

    // Reads the bracket that closes `Com_1(`; the term within has been judged before.
    fn close_com(&mut self, piece: Piece<'a>) -> Option<ParserState>
        ensures { RightLeads TargetState.TargetClosed self.old (plain_of piece.entry) result self.new }
    {
        if piece.is_close_bracket() {
            self.rule.differs = false;
            Some(ParserState::InTail(TailState::Targeted))
        } else {
            None
        }
    }

    // Ends the right term.
    fn close_target(&mut self) -> Result<(), Memory>
        ensures { OnOk result (AfterRight self.old self.new) }
    {
        self.rule.end_right(&mut self.symbols)?;
        Ok(())
    }
}

impl<'a> RuleDraft<'a> {
    // Ends the right term, whose symbol is numbered.
    fn end_right(&mut self, symbols: &mut Symbols<'a>) -> Result<(), Memory>
        ensures names { OnOk result (names_in symbols.new.names
            ≡ with_name (names_in symbols.old.names) self.old.name.now) }
        ensures arities { OnOk result (symbols.new.arities.items
            ≡ (if nat_lt (position_of self.old.name.now (names_in symbols.old.names))
            (length symbols.old.arities.items) then symbols.old.arities.items else symbols.old.arities.items
            ++ length self.old.updates.items ∷ [])) }
        ensures target { OnOk result (self.new.target ≡ position_of self.old.name.now (names_in symbols.old.names)) }
        ensures differs { OnOk result (self.new.differs
            ≡ not (slice_index symbols.new.arities.items self.new.target == length self.old.updates.items)) }
        ensures variables { self.new.variables ≡ self.old.variables }
        ensures left { self.new.left ≡ self.old.left }
        ensures source { self.new.source ≡ self.old.source }
        ensures updates { self.new.updates ≡ self.old.updates }
        ensures expression { self.new.expression ≡ self.old.expression }
        ensures guard { self.new.guard ≡ self.old.guard }
        ensures cost { self.new.cost ≡ self.old.cost }
    {
        let arity = to_u32(self.updates.len())?;
        let known = symbols.of_term(self.name, arity)?;
        self.target = to_u32(known.number)?;
        self.differs = known.arity != arity;
        Ok(())
    }
}
