//! What has been made of lines up to a piece.

ghost use Rattle.std.specs.Prelude.{◌≡◌, IfOk, OnOk};
ghost use Rattle.potential_types.specs.Views.{node_of};
ghost use Rattle.lexing_laws.specs.Lasts.{last_of};
ghost use Rattle.potential_text.specs.Drafts as drafts;
ghost use Rattle.potential_text.specs.Views.{draft_of};
ghost use Rattle.potential_text.specs.SymbolNames.{names_in};

use crate::action::{ACTIONS, Action, ClaimKind, LemmaKind, Opener, Role};
use crate::bounds::Parts;
use crate::certificates::Certificates;
use crate::items::{Items, made_claim, made_node};
use crate::names::SymbolNames;
use crate::numbers::{Numbers, in_32, index_of};
use crate::piece::{Piece, Sort};
use crate::polynomials::Terms;
use claim_types::Claim;
use lexing_laws::piece_bytes;
use model::Memory;
use potential_types::{SignedLemma, Summand};
use signed_bounds::Signed;
use std::alloc::Global;
use std::mem::replace;

/// What has been made up to a piece.
#[derive(Drop)]
pub struct Draft {
    /// What the next piece is.
    pub role: Role,
    /// The numbers, the polynomial, the certificates and the bound that are being read.
    pub numbers: Numbers,
    pub terms: Terms,
    pub certificates: Certificates,
    pub bound: Parts,
    /// The line that is being read.
    pub items: Items,
    /// The lemmas and the claims that were read.
    pub lemmas: Vec<SignedLemma>,
    pub claims: Vec<Claim>,
}

/// The number of a piece, 0 for what is none.
pub fn number_in(sort: Sort) -> u128
    ensures { result ≡ drafts.number_in sort }
{
    match sort {
        Sort::Number(number) => number,
        _ => 0,
    }
}

impl Draft {
    /// Nothing has been read.
    pub fn new(alloc: Global) -> Draft
        ensures { draft_of result ≡ drafts.begun }
    {
        Draft {
            role: Role::Plain,
            numbers: Numbers::new(),
            terms: Terms::new(alloc),
            certificates: Certificates::new(alloc),
            bound: Parts::new(alloc),
            items: Items::new(alloc),
            lemmas: Vec::new(alloc),
            claims: Vec::new(alloc),
        }
    }

    /// Reads a piece of a text, in the role that the mark before it gives it.
    ///
    /// # Errors
    ///
    /// `Memory` where an allocation fails.
    pub fn take(&mut self, names: &SymbolNames<'_>, text: &[u8], piece: Piece) -> Result<(), Memory>
        ensures { OnOk result (draft_of self.new
            ≡ drafts.taken (names_in names.now) text.now piece (draft_of self.old)) }
    {
        let role = self.role;
        self.numbers.count(role);
        self.role = Role::Plain;
        self.take_in(role, names, text, piece)
    }

    // Reads a piece in a role.
    fn take_in(
        &mut self,
        role: Role,
        names: &SymbolNames<'_>,
        text: &[u8],
        piece: Piece,
    ) -> Result<(), Memory>
        ensures { OnOk result (draft_of self.new
            ≡ drafts.read_in role (names_in names.now) text.now piece (draft_of self.old)) }
    {
        match role {
            Role::Plain | Role::LineWord | Role::BoundWord => Ok(()),
            Role::Symbol => {
                let name = piece_bytes(text, piece.at, piece.len);
                self.numbers.symbol = in_32(names.position_or_count(name) as u128);
                Ok(())
            }
            Role::Number(field) => {
                self.numbers.put(field, number_in(piece.sort));
                Ok(())
            }
            Role::Factor => self.terms.push_factor(index_of(number_in(piece.sort))),
            Role::Listed => self.items.push_fact(in_32(number_in(piece.sort))),
            Role::Constant => self.bound.push(Signed::Const(number_in(piece.sort))),
        }
    }

    /// Does the action of a mark.
    ///
    /// # Errors
    ///
    /// `Memory` where an allocation fails.
    pub fn done(&mut self, alloc: Global, mark: u32) -> Result<(), Memory>
        ensures { OnOk result (draft_of self.new ≡ drafts.done mark (draft_of self.old)) }
    {
        match ACTIONS.get(mark as usize) {
            Some(action) => self.act(alloc, *action),
            None => Ok(()),
        }
    }

    // Does an action.
    fn act(&mut self, alloc: Global, action: Action) -> Result<(), Memory>
        ensures { OnOk result (draft_of self.new ≡ drafts.acted action (draft_of self.old)) }
    {
        match action {
            Action::MonomialRead => self.end_monomial(alloc),
            Action::OneRowRead => self.end_one_row(),
            Action::TwoRowsRead => self.end_two_rows(),
            Action::ZeroRowRead => self.end_zero_row(),
            Action::FunctionRead => self.end_function(alloc),
            Action::MoveRead => self.end_move(alloc),
            Action::PaymentRead => self.end_payment(alloc),
            Action::ChargeRead => self.end_charge(alloc),
            Action::PhaseMoveRead => self.end_phase_move(alloc),
            Action::CountedRead => self.end_counted(alloc),
            Action::PartRead => self.end_part(alloc),
            Action::Opens(kind) => self.open(alloc, kind),
            Action::Closes => self.close(alloc),
            Action::LemmaRead(kind) => self.end_lemma(alloc, kind),
            Action::ClaimRead(kind) => self.end_claim(alloc, kind),
            _ => {
                self.note(alloc, action);
                Ok(())
            }
        }
    }

    // Does an action that allocates nothing.
    fn note(&mut self, alloc: Global, action: Action)
        ensures { draft_of self.new ≡ drafts.noted action (draft_of self.old) }
    {
        match action {
            Action::Comes(role) => self.role = role,
            Action::Negative => self.numbers.negative = true,
            Action::CertificateRead => self.certificates.end(alloc),
            Action::FunctionsRead => self.items.end_functions(alloc),
            Action::Keeps => self.items.set_keeps(true),
            Action::Resets => self.items.set_keeps(false),
            Action::GainRead => self.end_gain(alloc),
            Action::CitedRead => self.items.set_cited(self.numbers.first),
            Action::FormRead => self.end_form(alloc),
            Action::FloorRead => self.end_floor(alloc),
            Action::ByOne => self.items.set_by_each(false),
            Action::ByEach => self.items.set_by_each(true),
            Action::BoundBegins => self.numbers.begin_bound(),
            _ => {}
        }
    }

    // A monomial ends.
    fn end_monomial(&mut self, alloc: Global) -> Result<(), Memory>
        ensures { OnOk result (draft_of self.new ≡ drafts.monomial_read (draft_of self.old)) }
    {
        self.terms.end_monomial(alloc, self.numbers.signed_size())?;
        self.numbers.negative = false;
        Ok(())
    }

    // A summand of one row ends.
    fn end_one_row(&mut self) -> Result<(), Memory>
        ensures { OnOk result (draft_of self.new ≡ drafts.one_row_read (draft_of self.old)) }
    {
        self.certificates.push(Summand::OneRow {
            times: self.numbers.size,
            row: self.numbers.row,
        })
    }

    // A summand of two rows ends.
    fn end_two_rows(&mut self) -> Result<(), Memory>
        ensures { OnOk result (draft_of self.new ≡ drafts.two_rows_read (draft_of self.old)) }
    {
        self.certificates.push(Summand::TwoRows {
            times: self.numbers.size,
            first: self.numbers.row,
            second: self.numbers.other,
        })
    }

    // A summand of a variable and a row with its opposite ends.
    fn end_zero_row(&mut self) -> Result<(), Memory>
        ensures { OnOk result (draft_of self.new ≡ drafts.zero_row_read (draft_of self.old)) }
    {
        self.certificates.push(Summand::ZeroRow {
            times: self.numbers.signed_size(),
            row: self.numbers.row,
            opposite: self.numbers.other,
            variable: self.numbers.variable,
        })?;
        self.numbers.negative = false;
        Ok(())
    }

    // The function of a symbol ends.
    fn end_function(&mut self, alloc: Global) -> Result<(), Memory>
        ensures { OnOk result (draft_of self.new ≡ drafts.function_read (draft_of self.old)) }
    {
        let form = self.terms.end(alloc);
        self.items.push_function(self.numbers.symbol, form)
    }

    // The gain of a move or the amount of a payment ends.
    fn end_gain(&mut self, alloc: Global)
        ensures { draft_of self.new ≡ drafts.gain_read (draft_of self.old) }
    {
        let gain = self.terms.end(alloc);
        self.items.set_gain(gain);
    }

    // The polynomial of a lemma ends.
    fn end_form(&mut self, alloc: Global)
        ensures { draft_of self.new ≡ drafts.form_read (draft_of self.old) }
    {
        let form = self.terms.end(alloc);
        self.items.set_form(form);
    }

    // The certificate of a lemma ends.
    fn end_floor(&mut self, alloc: Global)
        ensures { draft_of self.new ≡ drafts.floor_read (draft_of self.old) }
    {
        let floor = self.certificates.take_second(alloc);
        self.items.set_floor(floor);
    }

    // A move ends.
    fn end_move(&mut self, alloc: Global) -> Result<(), Memory>
        ensures { OnOk result (draft_of self.new ≡ drafts.move_read (draft_of self.old)) }
    {
        let certificate = self.certificates.take_second(alloc);
        self.items.push_move(alloc, self.numbers.step, certificate)
    }

    // A payment ends.
    fn end_payment(&mut self, alloc: Global) -> Result<(), Memory>
        ensures { OnOk result (draft_of self.new ≡ drafts.payment_read (draft_of self.old)) }
    {
        let floor = self.certificates.take_first(alloc);
        let positive = self.certificates.take_second(alloc);
        self.items
            .push_payment(alloc, self.numbers.step, floor, positive)
    }

    // A charge ends.
    fn end_charge(&mut self, alloc: Global) -> Result<(), Memory>
        ensures { OnOk result (draft_of self.new ≡ drafts.charge_read (draft_of self.old)) }
    {
        let form = self.terms.end(alloc);
        self.items.push_charge(self.numbers.step, form)
    }

    // A move of two phases ends.
    fn end_phase_move(&mut self, alloc: Global) -> Result<(), Memory>
        ensures { OnOk result (draft_of self.new ≡ drafts.phase_move_read (draft_of self.old)) }
    {
        let first = self.certificates.take_first(alloc);
        let second = self.certificates.take_second(alloc);
        self.items.push_phase_move(self.numbers.step, first, second)
    }

    // A counted rule ends.
    fn end_counted(&mut self, alloc: Global) -> Result<(), Memory>
        ensures { OnOk result (draft_of self.new ≡ drafts.counted_read (draft_of self.old)) }
    {
        let floor = self.certificates.take_second(alloc);
        self.items.push_counted(self.numbers.step, floor)
    }

    // A bound ends that is the positive part of a polynomial.
    fn end_part(&mut self, alloc: Global) -> Result<(), Memory>
        ensures { OnOk result (draft_of self.new ≡ drafts.part_read (draft_of self.old)) }
    {
        let form = self.terms.end(alloc);
        self.bound.push(Signed::Part(form))
    }

    // The parts of a bound begin.
    fn open(&mut self, alloc: Global, kind: Opener) -> Result<(), Memory>
        ensures { OnOk result (draft_of self.new ≡ drafts.bound_opened kind (draft_of self.old)) }
    {
        self.bound.open(alloc, kind, self.numbers.base)
    }

    // All parts of a bound were read.
    fn close(&mut self, alloc: Global) -> Result<(), Memory>
        ensures { OnOk result (draft_of self.new ≡ drafts.bound_closed (draft_of self.old)) }
    {
        self.bound.close(alloc, self.numbers.divisor)
    }

    // A lemma ends.
    fn end_lemma(&mut self, alloc: Global, kind: LemmaKind) -> Result<(), Memory>
        ensures { OnOk result (draft_of self.new ≡ drafts.lemma_read kind (draft_of self.old)) }
    {
        let items = replace(&mut self.items, Items::new(alloc));
        let node = made_node(kind, self.numbers, items);
        let bound = self.bound.end(alloc);
        self.numbers.bounding = false;
        self.lemmas.push(SignedLemma { node, bound })?;
        Ok(())
    }

    // A claim ends.
    fn end_claim(&mut self, alloc: Global, kind: ClaimKind) -> Result<(), Memory>
        ensures { OnOk result (draft_of self.new ≡ drafts.claim_read kind (draft_of self.old)) }
    {
        let items = replace(&mut self.items, Items::new(alloc));
        let bound = self.bound.end(alloc);
        self.numbers.bounding = false;
        self.claims
            .push(made_claim(kind, self.numbers, items, bound))?;
        Ok(())
    }
}
