//! The steps of parsing a rule up to the end of its left term.

ghost use Rattle.std.specs.Prelude.{◌≡◌, Some, None, if◌then◌else◌, IfOk, OnOk, length, nat_lt, not, ◌==◌, ◌++◌, ◌∷◌};
ghost use Rattle.std.specs.Prelude.{[], slice_index};
ghost use Rattle.model.specs.Programs.{Name};
ghost use Rattle.text_core.specs.Names.{position_of};
ghost use Rattle.its_text.specs.expr_text.Terms.{with_name};
ghost use Rattle.expr_reader.specs.Variables.{names_in};
ghost use Rattle.its_reader.specs.Views.{piece_of as plain_of};
ghost use Rattle.its_reader.specs.Tests as tests;
ghost use Rattle.its_reader.specs.StateSteps.{LeftLeads, RuleLeads, ArgumentLeads, AfterLeft};

use crate::draft::{Draft, RuleDraft};
use crate::parser_state::{CostState, ParserState, SectionState, SourceState, TargetState};
use crate::piece::Piece;
use crate::symbols::{Symbols, to_u32};
use model::Memory;

// A state within a left term, if a test passes.
fn leads_if(test: bool, behind: SourceState) -> Option<ParserState>
    ensures { result ≡ (if test then Some (ParserState.InLeft behind) else None) }
{
    if test {
        Some(ParserState::InLeft(behind))
    } else {
        None
    }
}

impl<'a> Draft<'a> {
    /// The state after a piece up to the end of a left term. None where the piece can't follow.
    pub(crate) fn advance_in_left(
        &mut self,
        state: SourceState,
        piece: Piece<'a>,
    ) -> Result<Option<ParserState>, Memory>
        ensures { IfOk result (λ reached. LeftLeads state self.old (plain_of piece.entry) reached self.new) }
    {
        match state {
            SourceState::AfterRule => Ok(self.begin_rule(piece)),
            SourceState::SourceNamed => Ok(leads_if(
                piece.is_open_bracket(),
                SourceState::LeftOpened,
            )),
            SourceState::LeftOpened => self.behind_left_bracket(piece),
            SourceState::LeftRead => self.behind_left_argument(piece),
            SourceState::LeftParted => self.behind_left_comma(piece),
            SourceState::SourceClosed => Ok(behind_left(piece)),
        }
    }

    /// Reads a rule's source, or the end of the section.
    pub(crate) fn begin_rule(&mut self, piece: Piece<'a>) -> Option<ParserState>
        ensures leads { RuleLeads self.old (plain_of piece.entry) result self.new }
        ensures sourced { (name : Name) → tests.word (plain_of piece.entry) ≡ Some name
            → result ≡ Some (ParserState.InLeft SourceState.SourceNamed) }
    {
        match piece.word() {
            Some(name) => {
                self.rule.name = name;
                Some(ParserState::InLeft(SourceState::SourceNamed))
            }
            None => self.end_rules(piece),
        }
    }

    fn end_rules(&mut self, piece: Piece<'a>) -> Option<ParserState>
        ensures { tests.word (plain_of piece.entry) ≡ None → RuleLeads self.old (plain_of piece.entry) result self.new }
    {
        if piece.is_close_bracket() {
            self.sections.rules = true;
            Some(ParserState::InSections(SectionState::Between))
        } else {
            None
        }
    }

    // Reads a left argument, or the end of a term without any.
    fn behind_left_bracket(&mut self, piece: Piece<'a>) -> Result<Option<ParserState>, Memory>
        ensures { IfOk result (λ reached. LeftLeads SourceState.LeftOpened self.old
            (plain_of piece.entry) reached self.new) }
    {
        if piece.is_close_bracket() {
            self.close_source()?;
            Ok(Some(ParserState::InLeft(SourceState::SourceClosed)))
        } else {
            let reached = self.name_left(piece)?;
            Ok(reached)
        }
    }

    fn behind_left_argument(&mut self, piece: Piece<'a>) -> Result<Option<ParserState>, Memory>
        ensures { IfOk result (λ reached. LeftLeads SourceState.LeftRead self.old
            (plain_of piece.entry) reached self.new) }
    {
        if piece.is_close_bracket() {
            self.close_source()?;
            Ok(Some(ParserState::InLeft(SourceState::SourceClosed)))
        } else {
            Ok(leads_if(piece.is_comma(), SourceState::LeftParted))
        }
    }

    fn behind_left_comma(&mut self, piece: Piece<'a>) -> Result<Option<ParserState>, Memory>
        ensures { IfOk result (λ reached. LeftLeads SourceState.LeftParted self.old
            (plain_of piece.entry) reached self.new) }
    {
        let reached = self.name_left(piece)?;
        Ok(reached)
    }

    // Reads a left argument.
    fn name_left(&mut self, piece: Piece<'a>) -> Result<Option<ParserState>, Memory>
        ensures { IfOk result (λ reached. ArgumentLeads self.old (plain_of piece.entry) reached self.new) }
    {
        match piece.word() {
            Some(name) => {
                self.rule.variables.number(name)?;
                Ok(Some(ParserState::InLeft(SourceState::LeftRead)))
            }
            None => Ok(None),
        }
    }

    // Ends the left term.
    fn close_source(&mut self) -> Result<(), Memory>
        ensures { OnOk result (AfterLeft self.old self.new) }
    {
        self.rule.end_left(&mut self.symbols)?;
        Ok(())
    }
}

// Reads the arrow, or the opening braces of a cost.
fn behind_left(piece: Piece<'_>) -> Option<ParserState>
    ensures { result ≡ (if tests.is_arrow (plain_of piece.entry) then Some (ParserState.InRight TargetState.Arrowed)
        else if tests.is_cost_open (plain_of piece.entry) then Some (ParserState.InCost CostState.Costing) else None) }
{
    if piece.is_arrow() {
        Some(ParserState::InRight(TargetState::Arrowed))
    } else if piece.is_cost_open() {
        Some(ParserState::InCost(CostState::Costing))
    } else {
        None
    }
}

impl<'a> RuleDraft<'a> {
    /// Ends the left term, whose symbol is numbered.
    fn end_left(&mut self, symbols: &mut Symbols<'a>) -> Result<(), Memory>
        ensures names { OnOk result (names_in symbols.new.names
            ≡ with_name (names_in symbols.old.names) self.old.name.now) }
        ensures arities { OnOk result (symbols.new.arities.items
            ≡ (if nat_lt (position_of self.old.name.now (names_in symbols.old.names))
            (length symbols.old.arities.items) then symbols.old.arities.items else symbols.old.arities.items
            ++ length (names_in self.old.variables) ∷ [])) }
        ensures left { OnOk result (self.new.left ≡ length (names_in self.old.variables)) }
        ensures source { OnOk result (self.new.source ≡ position_of self.old.name.now (names_in symbols.old.names)) }
        ensures differs { OnOk result (self.new.differs
            ≡ not (slice_index symbols.new.arities.items self.new.source == length (names_in self.old.variables))) }
        ensures variables { self.new.variables ≡ self.old.variables }
        ensures updates { self.new.updates ≡ self.old.updates }
        ensures expression { self.new.expression ≡ self.old.expression }
        ensures guard { self.new.guard ≡ self.old.guard }
        ensures cost { self.new.cost ≡ self.old.cost }
    {
        let arity = to_u32(self.variables.count())?;
        let known = symbols.of_term(self.name, arity)?;
        self.left = arity;
        self.source = to_u32(known.number)?;
        self.differs = known.arity != arity;
        Ok(())
    }
}
