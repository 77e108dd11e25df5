//! The steps of parsing within the braces of a cost, and how the cost ends.

ghost use Rattle.std.specs.Prelude.{◌≡◌, ◌&&◌, IfOk, Some, None, if◌then◌else◌};
ghost use Rattle.text_core.specs.Reading.{first_among};
ghost use Rattle.expr_reader.specs.GuardParts.{piece_in};
ghost use Rattle.its_text.specs.Grammar.{programs};
ghost use Rattle.its_reader.specs.Views.{piece_of as plain_of, maybe_of};
ghost use Rattle.its_reader.specs.Tests as tests;
ghost use Rattle.its_reader.specs.Faults.{maybe_fault};
ghost use Rattle.its_reader.specs.FaultTests.{cost_faults, is_costing, atoms_fill};
ghost use Rattle.its_reader.specs.StateSteps.{CostLeads};
ghost use Rattle.its_reader.specs.PartEnds.{ends_in, AfterCost, CostEndsPart};

use crate::draft::{Draft, RuleDraft};
use crate::expression::refusal_of;
use crate::fault::{Fault, Kind};
use crate::lookahead::{Lookahead, first_with_long_name};
use crate::parser_state::{CostState, ParserState, TargetState};
use crate::part_end::PartEnd;
use crate::piece::{Piece, inner_of};
use expr_reader::Piece as Inner;
use model::{ATOM_LIMIT, Memory};
use std::alloc::Global;

impl<'a> Draft<'a> {
    /// The state after a piece within the braces of a cost. None where the piece can't follow.
    pub(crate) fn advance_in_cost(
        &mut self,
        alloc: Global,
        state: CostState,
        piece: Piece<'a>,
    ) -> Result<Option<ParserState>, Memory>
        ensures { IfOk result (λ reached. CostLeads state self.old (plain_of piece.entry) reached self.new) }
    {
        match state {
            CostState::Costing => self.within_cost(alloc, piece),
            CostState::Costed => Ok(behind_cost(piece)),
        }
    }

    fn within_cost(
        &mut self,
        alloc: Global,
        piece: Piece<'a>,
    ) -> Result<Option<ParserState>, Memory>
        ensures { IfOk result (λ reached. CostLeads CostState.Costing self.old
            (plain_of piece.entry) reached self.new) }
    {
        let within = ParserState::InCost(CostState::Costing);
        let reached = self.take_expression(alloc, within, piece)?;
        Ok(reached)
    }
}

fn behind_cost(piece: Piece<'_>) -> Option<ParserState>
    ensures { result ≡ (if tests.is_cost_close (plain_of piece.entry) then Some
        (ParserState.InRight TargetState.Arrowed)
        else None) }
{
    if piece.is_cost_close() {
        Some(ParserState::InRight(TargetState::Arrowed))
    } else {
        None
    }
}

impl<'a> RuleDraft<'a> {
    /// The first of a fault so far and those at the next token within the braces of a cost.
    pub(crate) fn first_fault_in_cost(
        &self,
        best: Option<Fault>,
        state: CostState,
        lookahead: Lookahead<'a>,
    ) -> Option<Fault>
        ensures { maybe_fault result ≡ first_among programs (maybe_fault best)
            (cost_faults state self.now lookahead.entry.at (maybe_of lookahead.entry.next)) }
    {
        let named = first_with_long_name(best, lookahead);
        self.first_fault_if_going(named, state.is_costing(), lookahead)
    }

    /// Ends the cost, if it can end here and the next piece doesn't continue it.
    pub(crate) fn end_part_in_cost(
        &mut self,
        alloc: Global,
        state: CostState,
        next: Option<Piece<'a>>,
    ) -> Result<PartEnd, Memory>
        ensures { IfOk result (λ part_ended. CostEndsPart state self.old
            (maybe_of next.entry) part_ended.state part_ended.refusal self.new) }
    {
        if self.cost_ends(state, inner_of(next)) {
            let refusal = self.end_cost(alloc)?;
            Ok(PartEnd {
                state: ParserState::InCost(CostState::Costed),
                refusal,
            })
        } else {
            Ok(PartEnd {
                state: ParserState::InCost(state),
                refusal: None,
            })
        }
    }

    fn cost_ends(&self, state: CostState, next: Option<Inner<'a>>) -> bool
        ensures { result ≡ (is_costing state && ends_in self.now.expression (piece_in next.entry)) }
    {
        state.is_costing() && self.expression_ends(next)
    }

    fn end_cost(&mut self, alloc: Global) -> Result<Option<Kind>, Memory>
        ensures { IfOk result (λ refusal. AfterCost self.old refusal self.new) }
    {
        let cost = self.expression.finish(alloc)?;
        let refusal = refusal_of(alloc, &cost)?;
        self.cost = Some(cost);
        Ok(refusal)
    }

    /// Whether there are as many atoms as the limit allows; a cost counts as one.
    pub(crate) fn has_atoms(&self) -> bool
        ensures { result ≡ atoms_fill self.now }
    {
        let atoms = self.guard.atoms.len();
        match self.cost {
            Some(_) => atoms >= ATOM_LIMIT - 1,
            None => atoms >= ATOM_LIMIT,
        }
    }
}
