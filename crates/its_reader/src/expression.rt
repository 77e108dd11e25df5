//! The steps of parsing an expression, an argument or a cost, and how it ends.

ghost use Rattle.std.specs.Prelude.{◌≡◌, not, ℕ, IfOk, OnOk};
ghost use Rattle.poly_terms.specs.Faults.{first_fault};
ghost use Rattle.poly_terms.specs.Views.{term_of};
ghost use Rattle.its_text.specs.StateFaults.{expansion_faults};
ghost use Rattle.expr_reader.specs.Variables.{names_in};
ghost use Rattle.expr_reader.specs.Standing.{Leads};
ghost use Rattle.expr_reader.specs.Faults.{fault_of as unexpanded_of};
ghost use Rattle.expr_reader.specs.GuardParts.{piece_in, goes_on};
ghost use Rattle.expr_reader.specs.Views.{piece_of as inner_of};
ghost use Rattle.its_reader.specs.Views.{piece_of as plain_of};
ghost use Rattle.its_reader.specs.Faults.{maybe_kind};
ghost use Rattle.its_reader.specs.StateSteps.{ExpressionTakes, StaysInRule};
ghost use Rattle.its_reader.specs.PartEnds.{ends_in};

use crate::draft::{Draft, RuleDraft};
use crate::fault::Kind;
use crate::parser_state::ParserState;
use crate::piece::Piece;
use crate::room::has_room;
use expr_reader::{Expression, Piece as Inner, Unexpanded};
use model::Memory;
use poly_terms::Expr;
use std::alloc::{AllocError, Global};

/// The refusal for the fault that prevents the expansion of an expression.
pub(crate) fn kind_of(fault: Option<Unexpanded>) -> Option<Kind>
    ensures { (at : ℕ) → maybe_kind result at ≡ expansion_faults at (unexpanded_of fault) }
{
    match fault {
        Some(fault) => Some(Kind::of(fault)),
        None => None,
    }
}

/// The refusal of an expression that has ended.
pub(crate) fn refusal_of(alloc: Global, made: &Expr) -> Result<Option<Kind>, Memory>
    ensures { IfOk result (λ refusal. (at : ℕ) → maybe_kind refusal at
        ≡ expansion_faults at (first_fault (term_of made.now))) }
{
    let fault = expr_reader::expansion_fault(alloc, made)?;
    Ok(kind_of(fault))
}

// Whether the next piece ends the expression, as it doesn't continue it.
fn ends(expression: &Expression, next: Option<Inner<'_>>) -> bool
    ensures { result ≡ not (goes_on expression.now (piece_in next.entry)) }
{
    match next {
        Some(piece) => !expression.goes_on_with(piece),
        None => true,
    }
}

impl<'a> Draft<'a> {
    /// The state after a piece of the expression, within the expression. None where the piece doesn't continue it.
    pub(crate) fn take_expression(
        &mut self,
        alloc: Global,
        within: ParserState,
        piece: Piece<'a>,
    ) -> Result<Option<ParserState>, Memory>
        ensures { IfOk result (λ reached. ExpressionTakes within self.old (plain_of piece.entry) reached self.new) }
    {
        match piece {
            Piece::Inner(inner) => {
                if self.rule.expression.goes_on_with(inner) {
                    self.rule.take_inner(alloc, inner)?;
                    Ok(Some(within))
                } else {
                    Ok(None)
                }
            }
            _ => Ok(None),
        }
    }
}

impl<'a> RuleDraft<'a> {
    fn take_inner(&mut self, alloc: Global, piece: Inner<'a>) -> Result<(), Memory>
        ensures leads { OnOk result (Leads (names_in self.old.variables) self.old.expression (inner_of piece.entry)
            (names_in self.new.variables) self.new.expression) }
        ensures stays { StaysInRule self.old self.new }
    {
        if has_room(&self.expression, &self.variables) {
            self.expression.take(alloc, &mut self.variables, piece)?;
            Ok(())
        } else {
            Err(AllocError)
        }
    }

    /// Whether the expression ends before the next piece.
    pub(crate) fn expression_ends(&self, next: Option<Inner<'a>>) -> bool
        ensures { result ≡ ends_in self.now.expression (piece_in next.entry) }
    {
        self.expression.can_end() && ends(&self.expression, next)
    }
}
