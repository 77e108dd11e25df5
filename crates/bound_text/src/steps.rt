//! The steps of parsing a bound.

ghost use Rattle.std.specs.Prelude.{◌≡◌, ◌&&◌, ◌^◌, ◌<◌, IsTrue, IsFalse, OnOk, MatchOption, MatchResult};
ghost use Rattle.bound_text.specs.ParserStates.{last, init, can_be_argument as can_be_argument_of};
ghost use Rattle.bound_text.specs.ParserStates.{in_arguments as in_arguments_of};
ghost use Rattle.bound_text.specs.Steps.{step as step_of, begin_item as item_begun, begin_exponent as exponent_begun};
ghost use Rattle.bound_text.specs.Steps.{follow_item as item_followed, caret_behind, close_bracket as bracket_closed};
ghost use Rattle.bound_text.specs.Steps.{end_argument as argument_ended, inside, state_at_position, behind_factor};
ghost use Rattle.bound_text.specs.Steps.{can_close as bracket_can_close, item_of};
ghost use Rattle.bound_text.specs.ParserStates as parser_states;
ghost use Rattle.text_core.specs.model.Bounds.{Constant, Input, PowerOf, NoParts};
ghost use Rattle.bound_text.specs.Shapes.{with_part};
ghost use Rattle.bound_text.specs.ParserStates.{term_of, bound_of_parts};
ghost use Rattle.bound_text.specs.Printing.{piece_of};
ghost use Rattle.bound_text.specs.Checks.{is_caret, takes_caret, has_large_base as has_large_base_of};
ghost use Rattle.bound_expr.specs.Views.{bound_of};
ghost use Rattle.bound_text.specs.Views.{is_arguments, parts_in, bracket_of, outer_in, state_of, is_settled, Follows};
ghost use Rattle.bound_text.specs.declared.state.Position.TheVariants as at;

use crate::fault::Fault;
use crate::joining::{
    bound_from, can_end, ends_with, is_empty, makes_leaf, makes_maximum, makes_sum, maximum_from,
    power_from, product_from,
};
use crate::measured::{Counted, Measured};
use crate::piece::Piece;
use crate::state::{Bracket, Opened, Position, Reader};
use crate::taking::TOO_LARGE_BASE;
use bound_expr::Bound;
use std::alloc::Global;
use std::mem;

#[tactic(auto, using(crate::proofs::PartLaws::ends, crate::proofs::ViewLaws::outer_of_push))]
impl Reader {
    /// Whether this is the `^` after a base over 2^64-1.
    pub(crate) fn has_large_base(&self, piece: Piece) -> bool
        requires { IsTrue (is_settled self.now) }
        ensures { result ≡ has_large_base_of (state_of self.now) (piece_of piece) }
    {
        match (self.position, piece) {
            (Position::Number(c), Piece::Caret) => c >= TOO_LARGE_BASE,
            _ => false,
        }
    }

    // Opens a bracket, with which an item begins.
    fn open(&mut self, alloc: Global, bracket: Bracket) -> Result<(), Fault>
        ensures { Follows (Some (inside (bracket_of bracket) (outer_in self.old.outer) (parts_in self.old.terms)
            (parts_in self.old.factors))) self.new result }
    {
        let terms = mem::replace(&mut self.terms, Measured::new(alloc));
        let factors = mem::replace(&mut self.factors, Measured::new(alloc));
        self.outer.open(bracket, terms, factors)?;
        self.position = Position::Begins;
        Ok(())
    }

    // Takes a piece with which an item begins.
    pub(crate) fn begin_item(&mut self, alloc: Global, piece: Piece) -> Result<(), Fault>
        ensures { Follows (item_begun (outer_in self.old.outer) (parts_in self.old.terms)
            (parts_in self.old.factors) (piece_of piece)) self.new result }
    {
        match piece {
            Piece::Variable(i) => {
                if ends_with(&self.factors, i) {
                    return Err(Fault::Syntax);
                }
                self.position = Position::Name(i);
                Ok(())
            }
            Piece::Number(c) => {
                self.position = Position::Number(c);
                Ok(())
            }
            Piece::Maximum => self.open(alloc, Bracket::Arguments(Measured::new(alloc))),
            Piece::Open => self.open(alloc, Bracket::Factor),
            _ => Err(Fault::Syntax),
        }
    }

    // Takes a piece with which an exponent begins.
    pub(crate) fn begin_exponent(
        &mut self,
        alloc: Global,
        base: u64,
        piece: Piece,
    ) -> Result<(), Fault>
        ensures { Follows (exponent_begun (outer_in self.old.outer) (parts_in self.old.terms)
            (parts_in self.old.factors) base (piece_of piece)) self.new result }
    {
        match piece {
            Piece::Number(c) => self.end_power(alloc, base, Bound::Const(c)),
            Piece::Variable(i) => self.end_power(alloc, base, Bound::Var(i)),
            Piece::Open => self.open(alloc, Bracket::Exponent(base)),
            _ => Err(Fault::Syntax),
        }
    }

    // Appends the power with this exponent as an item.
    fn end_power(&mut self, alloc: Global, base: u64, exponent: Bound) -> Result<(), Fault>
        ensures { Follows (Some (behind_factor (outer_in self.old.outer) (parts_in self.old.terms)
            (parts_in self.old.factors) (PowerOf base (bound_of exponent)))) self.new result }
    {
        self.factors
            .push(Bound::Power(base, Box::new(alloc, exponent)?))?;
        self.position = Position::ItemRead;
        Ok(())
    }

    // Takes `^` after a number that begins an item.
    fn begin_power(&mut self, number: u128) -> Result<(), Fault>
        requires small { number < 2 ^ 64 }
        ensures { Follows (caret_behind (outer_in self.old.outer) (parts_in self.old.terms)
            (parts_in self.old.factors) (Some (Constant number))) self.new result }
    {
        if number < 2 {
            return Err(Fault::Syntax);
        }
        self.position = Position::PowerCaret(number as u64);
        Ok(())
    }

    // Whether an argument can end here.
    fn can_be_argument(&self) -> bool
        ensures { result ≡ can_be_argument_of (outer_in self.now.outer) (parts_in self.now.terms)
            (parts_in self.now.factors) }
    {
        self.outer.is_in_arguments()
            && can_end(&self.factors)
            && !makes_maximum(&self.terms, &self.factors)
    }

    // Leaves the innermost bracket and its contents, if one is open; the terms and factors before it are current again.
    fn leave(&mut self) -> Option<Opened>
        ensures { MatchOption result (outer_in self.old.outer ≡ parser_states.Whole)
            (λ left. (outer_in self.old.outer ≡ parser_states.Inside (bracket_of left.bracket) (parts_in self.new.terms)
            (parts_in self.new.factors) (outer_in self.new.outer)) × (parts_in left.terms ≡ parts_in self.old.terms)
            × (parts_in left.factors ≡ parts_in self.old.factors)) }
    {
        let mut opened = self.outer.close()?;
        mem::swap(&mut self.terms, &mut opened.terms);
        mem::swap(&mut self.factors, &mut opened.factors);
        Some(opened)
    }

    // Closes the innermost bracket.
    fn close(&mut self, alloc: Global) -> Result<(), Fault>
        ensures { Follows (bracket_closed (outer_in self.old.outer) (parts_in self.old.terms)
            (parts_in self.old.factors)) self.new result }
    {
        if !can_end(&self.factors) || !self.outer.can_close(&self.terms, &self.factors) {
            return Err(Fault::Syntax);
        }
        let Some(
            Opened {
                bracket,
                terms,
                factors,
                ..
            },
        ) = self.leave()
        else {
            return Err(Fault::Syntax);
        };
        let item = bracket.item_from(alloc, bound_from(terms, factors)?)?;
        self.factors.push_counted(item)?;
        self.position = Position::ItemRead;
        Ok(())
    }

    // Takes a piece that follows an item that is a factor.
    pub(crate) fn follow_item(&mut self, alloc: Global, piece: Piece) -> Result<(), Fault>
        requires settled { IsFalse (is_caret (piece_of piece) && takes_caret (init (parts_in self.old.factors))
            (last (parts_in self.old.factors))) }
        ensures { Follows (item_followed (outer_in self.old.outer) (parts_in self.old.terms)
            (parts_in self.old.factors) (piece_of piece)) self.new result }
    {
        match piece {
            Piece::Times => {
                self.position = Position::Begins;
                Ok(())
            }
            Piece::Blank if can_end(&self.factors) => {
                self.position = Position::BlankRead;
                Ok(())
            }
            Piece::Comma if self.can_be_argument() => {
                self.position = Position::CommaRead;
                Ok(())
            }
            Piece::Close => self.close(alloc),
            _ => Err(Fault::Syntax),
        }
    }

    // Ends a term, with the first blank of ` + `.
    pub(crate) fn end_term(&mut self, alloc: Global) -> Result<(), Fault>
        ensures { Follows (Some (state_at_position (outer_in self.old.outer)
            (with_part (parts_in self.old.terms) (term_of (parts_in self.old.factors))) NoParts parser_states.Begins)) self.new
            result }
    {
        let factors = mem::replace(&mut self.factors, Measured::new(alloc));
        self.terms.push_counted(product_from(factors))?;
        self.position = Position::Begins;
        Ok(())
    }

    // Ends an argument, with the comma of `, `.
    pub(crate) fn end_argument(&mut self, alloc: Global) -> Result<(), Fault>
        ensures { Follows (argument_ended (outer_in self.old.outer) (parts_in self.old.terms)
            (parts_in self.old.factors)) self.new result }
    {
        if !self.outer.is_in_arguments() {
            return Err(Fault::Syntax);
        }
        let Some(
            Opened {
                bracket,
                terms,
                factors,
                ..
            },
        ) = self.leave()
        else {
            return Err(Fault::Syntax);
        };
        match bracket {
            Bracket::Arguments(mut arguments) => {
                arguments.push_counted(bound_from(terms, factors)?)?;
                self.open(alloc, Bracket::Arguments(arguments))
            }
            _ => Err(Fault::Syntax),
        }
    }

    // Takes a piece that follows a number that begins an item.
    pub(crate) fn follow_number(
        &mut self,
        alloc: Global,
        number: u128,
        piece: Piece,
    ) -> Result<(), Fault>
        requires number { self.old.position ≡ at.Number number }
        requires small { IsTrue (is_caret (piece_of piece)) → number < 2 ^ 64 }
        ensures { Follows (item_followed (outer_in self.old.outer) (parts_in self.old.terms)
            (with_part (parts_in self.old.factors) (Constant number)) (piece_of piece)) self.new result }
    {
        match piece {
            Piece::Caret => self.begin_power(number),
            _ => {
                self.factors.push(Bound::Const(number))?;
                self.position = Position::ItemRead;
                self.follow_item(alloc, piece)
            }
        }
    }

    // Takes a piece that follows a variable that begins an item.
    pub(crate) fn follow_name(
        &mut self,
        alloc: Global,
        variable: u32,
        piece: Piece,
    ) -> Result<(), Fault>
        requires name { self.old.position ≡ at.Name variable }
        requires fresh { IsFalse (parser_states.is_input variable (last (parts_in self.old.factors))) }
        ensures { Follows (item_followed (outer_in self.old.outer) (parts_in self.old.terms)
            (with_part (parts_in self.old.factors) (Input variable)) (piece_of piece)) self.new result }
    {
        match piece {
            Piece::Caret => {
                self.position = Position::RunCaret(variable);
                Ok(())
            }
            _ => {
                self.factors.push(Bound::Var(variable))?;
                self.position = Position::ItemRead;
                self.follow_item(alloc, piece)
            }
        }
    }
}

impl Bracket {
    // Whether the bracket is that of a maximum.
    pub(crate) fn is_of_maximum(&self) -> bool
        ensures { result ≡ is_arguments (bracket_of self.now) }
    {
        matches!(self, Bracket::Arguments(_))
    }

    /// Whether the bracket can close after the bound that terms and factors make.
    pub(crate) fn can_close(&self, terms: &Measured, factors: &Measured) -> bool
        ensures { result ≡ bracket_can_close (bracket_of self.now)
            (bound_of_parts (parts_in terms.now) (parts_in factors.now)) }
    {
        match self {
            Bracket::Arguments(arguments) => !is_empty(arguments) && !makes_maximum(terms, factors),
            Bracket::Exponent(_) => !makes_leaf(terms, factors),
            Bracket::Factor => makes_sum(terms, factors),
        }
    }

    // The item that the bracket's bound makes.
    fn item_from(self, alloc: Global, counted: Counted) -> Result<Counted, Fault>
        ensures { MatchResult result (λ item. bound_of item.bound ≡ item_of (bracket_of self) (bound_of counted.bound))
            (λ fault. fault ≡ Fault.Memory) }
    {
        match self {
            Bracket::Arguments(mut arguments) => {
                arguments.push_counted(counted)?;
                Ok(maximum_from(arguments))
            }
            Bracket::Exponent(base) => Ok(power_from(alloc, base, counted)?),
            Bracket::Factor => Ok(counted),
        }
    }
}
