//! Takes one piece after the other.

ghost use Rattle.std.specs.Prelude.{◌≡◌, ◌&&◌, ◌<◌, ◌^◌, ◌≤◌, IsTrue, IsFalse, OnOk, List, Some, false};
ghost use Rattle.bound_text.specs.ParserStates as parser_states;
ghost use Rattle.bound_text.specs.ParserStates.{last};
ghost use Rattle.bound_text.specs.Steps.{step as step_of, end_run as run_ended, finish as finish_of, finish_at};
ghost use Rattle.bound_text.specs.Steps.{is_whole as is_whole_outer, with_copies};
ghost use Rattle.bound_text.specs.Printing.{piece_of};
ghost use Rattle.bound_text.specs.Checks.{begins as begins_at, piece_result, fault_or_state};
ghost use Rattle.bound_text.specs.Checks.{fault_of as fault_of_piece};
ghost use Rattle.bound_text.specs.Checks.{has_large_base as has_large_base_of};
ghost use Rattle.bound_text.specs.Views.{parts_in, outer_in, state_of, is_settled, is_in_run, Follows};
ghost use Rattle.bound_text.specs.Views.{FindsFault, Obeys, Finishes};

use crate::fault::Fault;
use crate::joining::{bound_from, can_end};
use crate::measured::Measured;
use crate::piece::Piece;
use crate::state::{Position, Reader};
use bound_expr::{Bound, CAP, Memory, NODE_LIMIT};
use std::alloc::Global;

/// The least base that is too large: 2^64.
pub const TOO_LARGE_BASE: u128 = 0x1_0000_0000_0000_0000;

/// More copies of a variable than a bound may have nodes.
const TOO_MANY: u128 = NODE_LIMIT as u128 + 1;

// The fault of a piece by itself, where n names are listed, and where `base` says whether it would be a base.
fn fault_of(names: usize, base: bool, piece: Piece) -> Result<(), Fault>
    ensures { FindsFault (fault_of_piece names base (piece_of piece)) result }
{
    match piece {
        Piece::Number(c) if base && c < 2 => Err(Fault::Syntax),
        Piece::Number(c) if c >= CAP || (base && c >= TOO_LARGE_BASE) => Err(Fault::NumberTooLarge),
        Piece::Variable(i) if names <= i as usize => Err(Fault::UnknownName),
        _ => Ok(()),
    }
}

impl Measured {
    // Appends a variable this many times.
    fn push_copies(&mut self, variable: u32, count: u32) -> Result<(), Memory>
        ensures { OnOk result (parts_in self.new ≡ with_copies count variable (parts_in self.old)) }
    {
        for _copy in 0..count {
            self.push(Bound::Var(variable))?;
        }
        Ok(())
    }
}

impl Reader {
    /// Takes one piece, where this many names are listed, and `caret` says whether `^` comes next.
    ///
    /// # Errors
    ///
    /// The first fault of the piece, or `Memory` where an allocation fails.
    pub fn take(
        &mut self,
        alloc: Global,
        names: usize,
        caret: bool,
        piece: Piece,
    ) -> Result<(), Fault>
        requires { IsTrue (is_settled self.old) }
        ensures { Obeys (piece_result names caret (state_of self.old) (piece_of piece)) self.new result }
    {
        if let Position::RunCaret(variable) = self.position {
            return self.end_run(variable, piece);
        }
        if self.has_large_base(piece) {
            return Err(Fault::NumberTooLarge);
        }
        let base = self.begins() && caret;
        self.follow(alloc, piece)?;
        fault_of(names, base, piece)?;
        self.check_size()
    }

    // Whether an item begins.
    fn begins(&self) -> bool
        ensures { result ≡ begins_at (state_of self.now).position }
    {
        matches!(self.position, Position::Begins)
    }

    // Takes a piece at any position but after the `^` of a run.
    fn follow(&mut self, alloc: Global, piece: Piece) -> Result<(), Fault>
        requires settled { IsTrue (is_settled self.old) }
        requires no_run { IsFalse (is_in_run self.old.position) }
        requires no_base { IsFalse (has_large_base_of (state_of self.old) (piece_of piece)) }
        ensures { Follows (step_of (state_of self.old) (piece_of piece)) self.new result }
    {
        match self.position {
            Position::Begins => self.begin_item(alloc, piece),
            Position::Number(number) => self.follow_number(alloc, number, piece),
            Position::Name(variable) => self.follow_name(alloc, variable, piece),
            Position::PowerCaret(base) => self.begin_exponent(alloc, base, piece),
            Position::ItemRead => self.follow_item(alloc, piece),
            Position::BlankRead => match piece {
                Piece::Plus => {
                    self.position = Position::PlusRead;
                    Ok(())
                }
                _ => Err(Fault::Syntax),
            },
            Position::PlusRead => match piece {
                Piece::Blank => self.end_term(alloc),
                _ => Err(Fault::Syntax),
            },
            Position::CommaRead => match piece {
                Piece::Blank => self.end_argument(alloc),
                _ => Err(Fault::Syntax),
            },
            Position::RunCaret(_) => unreachable!(),
        }
    }

    // Ends a run with its number. A number of copies over the limit is replaced by one that is refused, too.
    fn end_run(&mut self, variable: u32, piece: Piece) -> Result<(), Fault>
        ensures { Obeys (fault_or_state (fault_of_piece 0 false (piece_of piece))
            (run_ended (outer_in self.old.outer) (parts_in self.old.terms) (parts_in self.old.factors) variable
            (piece_of piece))) self.new result }
    {
        match piece {
            Piece::Number(count) if count >= 2 => {
                if count >= CAP {
                    return Err(Fault::NumberTooLarge);
                }
                self.factors
                    .push_copies(variable, count.min(TOO_MANY) as u32)?;
                self.position = Position::ItemRead;
                self.check_size()
            }
            _ => Err(Fault::Syntax),
        }
    }

    /// The bound of the text that was read, if a text can end here.
    ///
    /// # Errors
    ///
    /// `Syntax` where the text can't end here, or `Memory` where an allocation fails.
    pub fn finish(mut self) -> Result<Bound, Fault>
        ensures { Finishes (finish_of (state_of self)) result }
    {
        match self.position {
            Position::Number(c) => {
                self.factors.push(Bound::Const(c))?;
                self.end()
            }
            Position::Name(i) => {
                self.factors.push(Bound::Var(i))?;
                self.end()
            }
            Position::ItemRead => self.end(),
            _ => Err(Fault::Syntax),
        }
    }

    // The bound of a text that ends with a factor.
    fn end(self) -> Result<Bound, Fault>
        ensures { Finishes (finish_at parser_states.ItemRead (outer_in self.outer) (parts_in self.terms)
            (parts_in self.factors)) result }
    {
        if self.outer.is_empty() && can_end(&self.factors) {
            Ok(bound_from(self.terms, self.factors)?.bound)
        } else {
            Err(Fault::Syntax)
        }
    }
}
