//! Ends the parts that end before the next piece, with the fault at their last byte.

ghost use Rattle.std.specs.Prelude.{◌≡◌, ◌&&◌, ℕ, IfOk};
ghost use Rattle.its_text.specs.Kinds as kinds;
ghost use Rattle.its_text.specs.StateFaults.{fault_if};
ghost use Rattle.expr_reader.specs.GuardParts.{piece_in};
ghost use Rattle.its_reader.specs.Views.{maybe_of};
ghost use Rattle.its_reader.specs.Faults.{maybe_kind};
ghost use Rattle.its_reader.specs.TokenSteps.{EndsPart};
ghost use Rattle.its_reader.specs.PartEnds.{closes_left, AfterArgument, ArgumentIsPartEnded, RightEndsPart};
ghost use Rattle.its_reader.specs.PartEnds.{RepresentsGuard, TailEndsPart};
ghost use Rattle.its_reader.specs.Tests.{inner_next};

use crate::draft::{Draft, RuleDraft};
use crate::expression::{kind_of, refusal_of};
use crate::fault::Kind;
use crate::parser_state::{ParserState, SourceState, TailState, TargetState, Wrap};
use crate::piece::{Piece, inner_of};
use expr_reader::Piece as Inner;
use model::Memory;
use std::alloc::Global;

/// The parser's state after the parts that end here have been ended, and the refusal at the last byte that was read.
#[derive(Clone, Copy)]
pub(crate) struct PartEnd {
    pub state: ParserState,
    pub refusal: Option<Kind>,
}

// The refusal of a term that has just ended, if its symbol has another number of places.
fn arity_refusal(has_closed: bool, differs: bool) -> Option<Kind>
    ensures { (at : ℕ) → maybe_kind result at ≡ fault_if (has_closed && differs) kinds.ArityDiffers at }
{
    if has_closed {
        if differs {
            Some(Kind::ArityDiffers)
        } else {
            None
        }
    } else {
        None
    }
}

impl<'a> Draft<'a> {
    /// Ends a cost, an argument or an atom, if it can end here and the next piece doesn't continue it.
    pub(crate) fn end_part(
        &mut self,
        alloc: Global,
        state: ParserState,
        next: Option<Piece<'a>>,
    ) -> Result<PartEnd, Memory>
        ensures { IfOk result (λ part_ended. EndsPart state self.old (maybe_of next.entry) part_ended.state
            (maybe_kind part_ended.refusal) self.new) }
    {
        match state {
            ParserState::InSections(_) => Ok(PartEnd {
                state,
                refusal: None,
            }),
            ParserState::InLeft(left) => {
                let refusal = self.rule.refusal_in_left(left);
                Ok(PartEnd { state, refusal })
            }
            ParserState::InCost(cost) => {
                let costed = self.rule.end_part_in_cost(alloc, cost, next)?;
                Ok(costed)
            }
            ParserState::InRight(right) => {
                let argument_wrap = self.rule.end_part_in_right(alloc, right, next)?;
                Ok(argument_wrap)
            }
            ParserState::InTail(tail) => {
                let guarded = self.rule.end_part_in_tail(alloc, tail, next)?;
                Ok(guarded)
            }
        }
    }
}

impl<'a> RuleDraft<'a> {
    fn refusal_in_left(&self, state: SourceState) -> Option<Kind>
        ensures { (at : ℕ) → maybe_kind result at
            ≡ fault_if (closes_left state && self.now.differs) kinds.ArityDiffers at }
    {
        arity_refusal(state.is_closed(), self.differs)
    }

    fn end_part_in_right(
        &mut self,
        alloc: Global,
        state: TargetState,
        next: Option<Piece<'a>>,
    ) -> Result<PartEnd, Memory>
        ensures { IfOk result (λ part_ended. RightEndsPart state self.old
            (maybe_of next.entry) part_ended.state part_ended.refusal self.new) }
    {
        match state.argument_wrap() {
            Some(wrap) => {
                let part_ended = self.end_part_argument(alloc, wrap, inner_of(next))?;
                Ok(part_ended)
            }
            None => {
                let refusal = arity_refusal(state.is_closed(), self.differs);
                Ok(PartEnd {
                    state: ParserState::InRight(state),
                    refusal,
                })
            }
        }
    }

    fn end_part_argument(
        &mut self,
        alloc: Global,
        wrap: Wrap,
        next: Option<Inner<'a>>,
    ) -> Result<PartEnd, Memory>
        ensures { IfOk result (λ part_ended. ArgumentIsPartEnded wrap self.old
            (piece_in next.entry) part_ended.state part_ended.refusal self.new) }
    {
        if self.expression_ends(next) {
            let refusal = self.end_argument(alloc)?;
            Ok(PartEnd {
                state: ParserState::InRight(TargetState::Argued(wrap)),
                refusal,
            })
        } else {
            Ok(PartEnd {
                state: ParserState::InRight(TargetState::Arguing(wrap)),
                refusal: None,
            })
        }
    }

    fn end_argument(&mut self, alloc: Global) -> Result<Option<Kind>, Memory>
        ensures { IfOk result (λ refusal. AfterArgument self.old refusal self.new) }
    {
        let update = self.expression.finish(alloc)?;
        let refusal = refusal_of(alloc, &update)?;
        self.updates.push(update)?;
        Ok(refusal)
    }

    fn end_part_in_tail(
        &mut self,
        alloc: Global,
        state: TailState,
        next: Option<Piece<'a>>,
    ) -> Result<PartEnd, Memory>
        ensures { IfOk result (λ part_ended. TailEndsPart state self.old
            (maybe_of next.entry) part_ended.state part_ended.refusal self.new) }
    {
        if state.is_guarding() {
            let part_ended = self.end_part_guard(alloc, state, next)?;
            Ok(part_ended)
        } else {
            let refusal = arity_refusal(state.is_targeted(), self.differs);
            Ok(PartEnd {
                state: ParserState::InTail(state),
                refusal,
            })
        }
    }

    fn end_part_guard(
        &mut self,
        alloc: Global,
        state: TailState,
        next: Option<Piece<'a>>,
    ) -> Result<PartEnd, Memory>
        ensures { IfOk result (λ part_ended. RepresentsGuard state self.old
            (maybe_of next.entry) part_ended.state part_ended.refusal self.new) }
    {
        let fault = self.guard.end_part(alloc, inner_of(next))?;
        let refusal = kind_of(fault);
        Ok(PartEnd {
            state: ParserState::InTail(state),
            refusal,
        })
    }
}
