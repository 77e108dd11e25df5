//! The open brackets of a text.

ghost use Rattle.bound_text.specs.Brackets.{AreRounds, AreRounds-prop};

use crate::measured::Measured;
use crate::size::Round;
use crate::state::{Bracket, Opened};
use bound_expr::Memory;
use std::alloc::Global;

/// The open brackets, the outermost first. Each stores the counts around a bound in it, so that those of the innermost
/// bracket are known without going through the others.
#[derive(Drop)]
pub struct Brackets {
    opened: Vec<Opened>,
    ghost counted: { AreRounds opened.items } by { AreRounds-prop opened.items },
}

#[tactic(auto, using(crate::proofs::ViewLaws::in_arguments_last, crate::proofs::ViewLaws::can_close_last, crate::proofs::ViewLaws::can_close_none, crate::proofs::ViewLaws::is_whole_empty, crate::proofs::ViewLaws::rounds_last))]
impl Brackets {
    ghost use Rattle.std.specs.Prelude.{◌≡◌, OnOk, MatchOption};
    ghost use Rattle.bound_text.specs.ParserStates.{Whole, Inside, in_arguments as in_arguments_of, bound_of_parts};
    ghost use Rattle.bound_text.specs.Steps.{is_whole, innermost_can_close};
    ghost use Rattle.bound_text.specs.Views.{parts_in, bracket_of, outer_in, IsRound};

    /// No open brackets.
    pub(crate) fn new(alloc: Global) -> Brackets
        ensures { outer_in result ≡ Whole }
    {
        Brackets {
            opened: Vec::new(alloc),
        }
    }

    /// Whether no bracket is open.
    pub(crate) fn is_empty(&self) -> bool
        ensures { result ≡ is_whole (outer_in self.now) }
    {
        self.opened.is_empty()
    }

    /// Whether the innermost open bracket is that of a maximum.
    pub(crate) fn is_in_arguments(&self) -> bool
        ensures { result ≡ in_arguments_of (outer_in self.now) }
    {
        match self.opened.last() {
            Some(opened) => opened.bracket.is_of_maximum(),
            None => false,
        }
    }

    /// Whether the innermost open bracket can close after the bound that terms and factors make.
    pub(crate) fn can_close(&self, terms: &Measured, factors: &Measured) -> bool
        ensures { result ≡ innermost_can_close (outer_in self.now)
            (bound_of_parts (parts_in terms.now) (parts_in factors.now)) }
    {
        match self.opened.last() {
            Some(opened) => opened.bracket.can_close(terms, factors),
            None => false,
        }
    }

    /// The counts around the innermost bound.
    pub(crate) fn round(&self) -> Round
        ensures { IsRound (outer_in self.now) result }
    {
        match self.opened.last() {
            Some(opened) => opened.within,
            None => Round {
                nodes: 0,
                levels: 0,
                in_factor: false,
            },
        }
    }

    /// Opens a bracket after these terms and factors.
    pub(crate) fn open(
        &mut self,
        bracket: Bracket,
        terms: Measured,
        factors: Measured,
    ) -> Result<(), Memory>
        ensures { OnOk result (outer_in self.new ≡ Inside (bracket_of bracket) (parts_in terms) (parts_in factors)
            (outer_in self.old)) }
    {
        let round = self.round();
        let mut opened = Opened {
            bracket,
            terms,
            factors,
            within: round,
        };
        opened.within = opened.count_in(round);
        self.opened.push(opened)?;
        Ok(())
    }

    /// Closes the innermost bracket and returns it, if one is open.
    pub(crate) fn close(&mut self) -> Option<Opened>
        ensures { MatchOption result (outer_in self.old ≡ Whole)
            (λ opened. outer_in self.old ≡ Inside (bracket_of opened.bracket) (parts_in opened.terms)
            (parts_in opened.factors) (outer_in self.new)) }
    {
        self.opened.pop()
    }
}
