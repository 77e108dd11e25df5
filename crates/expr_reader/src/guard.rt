//! The state of parsing a guard.

ghost use Rattle.std.specs.Prelude.{◌≡◌, ◌++◌, ◌∷◌, [], not, ◌&&◌, List, IfOk, OnOk, IsTrue, IsFalse, Some};
ghost use Rattle.poly_terms.specs.Views.{term_of};
ghost use Rattle.model.specs.Programs as plain;
ghost use Rattle.model.specs.Programs.{Name};
ghost use Rattle.its_model.specs.Views.{relation_of as relation_view};
ghost use Rattle.expr_text.specs.Guards.{relation_of as relation_signed};
ghost use Rattle.expr_text.specs.GuardGrammarStates.{no_atoms};
ghost use Rattle.expr_text.specs.StateNames.{truth_worded};
ghost use Rattle.expr_text.specs.Differences.{differences, first_of_all};
ghost use Rattle.expr_reader.specs.Faults.{fault_of};
ghost use Rattle.expr_reader.specs.Variables.{names_in};
ghost use Rattle.expr_reader.specs.Views.{piece_of, sign_of, term_in};
ghost use Rattle.expr_reader.specs.Standing.{Leads, Clears, IsFresh, HasRoom};
ghost use Rattle.expr_reader.specs.GuardRepresentation.{atoms_in, relating_in, is_operating, IsWanting, EndsPart, Takes};
ghost use Rattle.expr_reader.specs.GuardParts.{is_wanting, is_read, begun_at, sign_read, sign_in as sign_view};
ghost use Rattle.expr_reader.specs.GuardParts.{piece_in, is_joining, names_truth, ends_right, Relates};

use crate::Memory;
use crate::expansion::{Unexpanded, compared};
use crate::expression::Expression;
use crate::piece::{Piece, Sign};
use crate::variables::Variables;
use its_model::{Atom, Rel};
use poly_terms::Expr;
use std::alloc::Global;
use std::mem;

/// The part that was read last.
#[derive(Clone, Copy, Debug, PartialEq, Eq)]
pub enum GuardState {
    /// Nothing, or a conjunction sign; an atom must follow.
    AtomWanted,
    /// Part of an atom's left side.
    LeftSide,
    /// The relation, and part of the right side.
    RightSide,
    /// An atom that has ended.
    AtomRead,
}

/// The left side of an atom, and its relation.
#[derive(Drop)]
pub struct Related {
    pub left: Expr,
    pub rel: Rel,
}

/// The part of a guard that has been read.
#[derive(Drop)]
pub struct GuardReader {
    pub state: GuardState,
    pub atoms: Vec<Atom>,
    pub related: Option<Related>,
    pub expression: Expression,
}

/// Whether a word is that of the atom that always holds.
pub(crate) fn is_truth(word: &[u8]) -> bool
    ensures { result ≡ truth_worded word.now }
{
    word == b"TRUE".as_slice() || word == b"true".as_slice()
}

// The relation that a sign denotes.
fn relation_of(sign: Sign) -> Rel
    ensures { relation_view result ≡ relation_signed (sign_of sign) }
{
    match sign {
        Sign::AtLeast => Rel::Ge,
        Sign::MoreThan => Rel::Gt,
        Sign::AtMost => Rel::Le,
        Sign::LessThan => Rel::Lt,
        Sign::Equal | Sign::DoubleEqual => Rel::Eq,
    }
}

// The sign of a relation.
fn sign_in(piece: Piece<'_>) -> Option<Sign>
    ensures { sign_view result ≡ sign_read (piece_of piece.entry) }
{
    match piece {
        Piece::Related(sign) => Some(sign),
        _ => None,
    }
}

// The state after a piece of an expression.
fn begun(state: GuardState) -> GuardState
    ensures { result ≡ begun_at state }
{
    match state {
        GuardState::AtomWanted => GuardState::LeftSide,
        GuardState::LeftSide => GuardState::LeftSide,
        GuardState::RightSide => GuardState::RightSide,
        GuardState::AtomRead => GuardState::AtomRead,
    }
}

// Whether the piece that follows is an operator or a relation.
fn operates(behind: Option<Piece<'_>>) -> bool
    ensures { result ≡ is_operating (piece_in behind.entry) }
{
    match behind {
        Some(piece) => piece.operates(),
        None => false,
    }
}

// Whether a piece is a word of the atom that always holds.
fn is_truth_word(piece: Piece<'_>) -> bool
    ensures { result ≡ names_truth (piece_of piece.entry) }
{
    match piece {
        Piece::Word(word) => is_truth(word),
        _ => false,
    }
}

impl GuardReader {
    /// The state in which nothing has been read.
    pub fn new(alloc: Global) -> GuardReader
        ensures { (before : List Name) → IsWanting before no_atoms before result }
    {
        GuardReader {
            state: GuardState::AtomWanted,
            atoms: Vec::new(alloc),
            related: None,
            expression: Expression::new(alloc),
        }
    }

    /// Returns the atoms that have been read, and resets the state to that in which nothing has been read.
    pub fn take_atoms(&mut self, alloc: Global) -> Vec<Atom>
        ensures atoms { result.items ≡ self.old.atoms.items }
        ensures fresh { IsFresh self.old.expression → (before : List Name) → IsWanting before no_atoms before self.new }
    {
        self.state = GuardState::AtomWanted;
        mem::replace(&mut self.atoms, Vec::new(alloc))
    }

    /// Ends the atom that is being read, if its right side can end here and the next piece doesn't continue it. Returns
    /// the fault that prevents the expansion of its differences, if there is one.
    ///
    /// # Errors
    ///
    /// `Memory` if an allocation fails.
    pub fn end_part(
        &mut self,
        alloc: Global,
        next: Option<Piece<'_>>,
    ) -> Result<Option<Unexpanded>, Memory>
        ensures { IfOk result (λ fault. EndsPart (piece_in next.entry) self.old (fault_of fault) self.new) }
    {
        if !self.ends_before(next) {
            return Ok(None);
        }
        match mem::replace(&mut self.related, None) {
            Some(related) => {
                let fault = self.end_atom(alloc, related)?;
                Ok(fault)
            }
            None => Ok(None),
        }
    }

    // Whether an atom ends before the next piece.
    fn ends_before(&self, next: Option<Piece<'_>>) -> bool
        ensures { result ≡ ends_right self.now (piece_in next.entry) }
    {
        if self.state != GuardState::RightSide || !self.expression.can_end() {
            return false;
        }
        match next {
            Some(piece) => !self.expression.goes_on_with(piece),
            None => true,
        }
    }

    // Ends the atom that is being read, whose right side ends here.
    fn end_atom(&mut self, alloc: Global, related: Related) -> Result<Option<Unexpanded>, Memory>
        ensures state { OnOk result (self.new.state ≡ GuardState.AtomRead) }
        ensures atoms { OnOk result (atoms_in self.new ≡ atoms_in self.old
            ++ plain.Compare (term_of related.left) (relation_view related.rel) (term_in self.old.expression) ∷ []) }
        ensures clears { OnOk result (Clears self.old.expression self.new.expression) }
        ensures fault { IfOk result (λ fault. fault_of fault ≡ first_of_all
            (differences (term_of related.left) (relation_view related.rel) (term_in self.old.expression))) }
    {
        let rel = related.rel;
        let right = self.expression.finish(alloc)?;
        let found = compared(alloc, related.left, rel, right)?;
        self.atoms.push(Atom::Compare {
            left: found.minuend,
            rel,
            right: found.subtrahend,
        })?;
        self.state = GuardState::AtomRead;
        Ok(found.fault)
    }

    /// Whether a word is the atom that always holds, as neither an operator nor a relation follows.
    pub fn reads_truth(&self, piece: Piece<'_>, behind: Option<Piece<'_>>) -> bool
        ensures { result ≡ (is_wanting self.now.state && names_truth (piece_of piece.entry)
            && not (is_operating (piece_in behind.entry))) }
    {
        self.state == GuardState::AtomWanted && is_truth_word(piece) && !operates(behind)
    }

    /// Takes the next piece, given the one after it. False if it can't follow.
    ///
    /// # Errors
    ///
    /// `Memory` if an allocation fails.
    pub fn take<'a>(
        &mut self,
        alloc: Global,
        variables: &mut Variables<'a>,
        piece: Piece<'a>,
        behind: Option<Piece<'a>>,
    ) -> Result<bool, Memory>
        requires { HasRoom (names_in variables.old) self.old.expression }
        ensures { IfOk result (λ taken. Takes (names_in variables.old) self.old (piece_of piece.entry)
            (piece_in behind.entry) taken (names_in variables.new) self.new) }
    {
        if self.reads_truth(piece, behind) {
            self.take_truth()?;
            return Ok(true);
        }
        if self.has_read() {
            return Ok(self.take_joint(piece));
        }
        if self.expression.goes_on_with(piece) {
            self.take_more(alloc, variables, piece)?;
            return Ok(true);
        }
        match sign_in(piece) {
            Some(sign) => {
                let taken = self.take_relation(alloc, sign)?;
                Ok(taken)
            }
            None => Ok(false),
        }
    }

    // Whether an atom has been read.
    fn has_read(&self) -> bool
        ensures { result ≡ is_read self.now.state }
    {
        self.state == GuardState::AtomRead
    }

    // Appends the atom that always holds.
    fn take_truth(&mut self) -> Result<(), Memory>
        ensures state { OnOk result (self.new.state ≡ GuardState.AtomRead) }
        ensures atoms { OnOk result (atoms_in self.new ≡ atoms_in self.old ++ plain.Always ∷ []) }
        ensures expression { self.new.expression ≡ self.old.expression }
    {
        self.atoms.push(Atom::Always)?;
        self.state = GuardState::AtomRead;
        Ok(())
    }

    // Takes a conjunction sign after an atom.
    fn take_joint(&mut self, piece: Piece<'_>) -> bool
        ensures joins { result ≡ is_joining (piece_of piece.entry) }
        ensures taken { IsTrue result → self.new ≡ record {
          state = GuardState.AtomWanted;
          atoms = self.old.atoms;
          related = self.old.related;
          expression = self.old.expression;
        } }
        ensures kept { IsFalse result → self.new ≡ self.old }
    {
        match piece {
            Piece::Joining(_) => {
                self.state = GuardState::AtomWanted;
                true
            }
            _ => false,
        }
    }

    // Takes a piece that continues the expression.
    fn take_more<'a>(
        &mut self,
        alloc: Global,
        variables: &mut Variables<'a>,
        piece: Piece<'a>,
    ) -> Result<(), Memory>
        requires { HasRoom (names_in variables.old) self.old.expression }
        ensures leads { OnOk result (Leads (names_in variables.old) self.old.expression (piece_of piece.entry)
            (names_in variables.new) self.new.expression) }
        ensures state { OnOk result (self.new.state ≡ begun_at self.old.state) }
        ensures atoms { self.new.atoms ≡ self.old.atoms }
        ensures related { self.new.related ≡ self.old.related }
    {
        self.expression.take(alloc, variables, piece)?;
        self.state = begun(self.state);
        Ok(())
    }

    // Takes a relation, if the left side can end.
    fn take_relation(&mut self, alloc: Global, sign: Sign) -> Result<bool, Memory>
        ensures { IfOk result (λ taken. Relates self.old (sign_of sign) taken self.new) }
    {
        if self.state != GuardState::LeftSide || !self.expression.can_end() {
            return Ok(false);
        }
        self.relate(alloc, sign)?;
        Ok(true)
    }

    // Stores the left side and its relation.
    fn relate(&mut self, alloc: Global, sign: Sign) -> Result<(), Memory>
        ensures state { OnOk result (self.new.state ≡ GuardState.RightSide) }
        ensures related { OnOk result (relating_in self.new.related
            ≡ Some (record { left = term_in self.old.expression; relation = relation_signed (sign_of sign) })) }
        ensures clears { OnOk result (Clears self.old.expression self.new.expression) }
        ensures atoms { self.new.atoms ≡ self.old.atoms }
    {
        let left = self.expression.finish(alloc)?;
        self.related = Some(Related {
            left,
            rel: relation_of(sign),
        });
        self.state = GuardState::RightSide;
        Ok(())
    }
}
