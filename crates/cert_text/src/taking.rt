//! How a piece of a proof file changes the state, and its fault.

ghost use Rattle.std.specs.Prelude.{◌≡◌, ◌-◌, ◌+◌, ◌^◌, ◌∷◌, ◌++◌, [], min, List, true, take, IfOk, OnOk};
ghost use Rattle.its_model.specs.Views.{program_of};
ghost use Rattle.text_grammar.specs.Marks.{fault_of};
ghost use Rattle.cert_lexer.specs.declared.piece.Piece.TheVariants as piece_of;
ghost use Rattle.cert_lexer.specs.Packed.{inners_in};
ghost use Rattle.cert_lexer.specs.declared.inner.Inner.{Inner};
ghost use Rattle.cert_text.specs.NumberFaults.{bytes_of as bytes_in, position_in_bound as position_in};
ghost use Rattle.cert_text.specs.ParsedSoFar.{own_of};
ghost use Rattle.cert_text.specs.Reading.{moved};
ghost use Rattle.cert_text.specs.Refused.{kind_at, refusal_of};
ghost use Rattle.cert_text.specs.Remembered.{in_64 as in_64_of};

use crate::draft::{in_32, in_64};
use crate::faults::{fault_of_name, fault_of_number, fault_of_place, name_bytes};
use crate::parsed_so_far::ParsedSoFar;
use crate::phase::Next;
use bound_expr::Bound;
use bound_text::Piece as BoundPiece;
use cert_lexer::{Behind, BoundRead, Packed, PackedRest, Piece, ProofKind, Sign, read_bound};
use its_model::Program;
use std::alloc::AllocError;
use std::mem::replace;
use text_grammar::Fault;

// A refusal of a kind at a position, if there is one.
fn fault_at(first_refusal: Option<ProofKind>, at: u64) -> Option<Fault<ProofKind>>
    ensures { fault_of result ≡ kind_at first_refusal at }
{
    match first_refusal {
        Some(kind) => Some(Fault { kind, at }),
        None => None,
    }
}

// The number of bytes of the first `count` pieces of a bound, or 2^64-1 if there are more.
fn bytes_of(pieces: PackedRest<'_>, count: u64) -> u64
    ensures { result ≡ min (bytes_in (take count (inners_in pieces.entry))) (2 ^ 64 - 1) }
{
    let mut sum = 0u64;
    let mut left = count;
    let mut rest = pieces;
    while let Some((inner, behind)) = rest.split_first() {
        if left == 0 {
            return sum;
        }
        sum = sum.saturating_add(inner.len);
        left -= 1;
        rest = behind;
    }
    sum
}

// The position of the refusal of a bound at the piece with this number, where `at` is the position of its last piece.
fn position_in_bound(pieces: PackedRest<'_>, index: u64, at: u64) -> u64
    ensures { (before : List Inner) (last : Inner) → inners_in pieces.entry ≡ before ++ last ∷ []
        → result ≡ in_64_of (at - bytes_in before + bytes_in (take index (inners_in pieces.entry))) }
{
    let count = (pieces.len() as u64).saturating_sub(1);
    let behind = bytes_of(pieces, count);
    let first = at.saturating_sub(behind);
    let before = bytes_of(pieces, index);
    first.saturating_add(before)
}

impl ParsedSoFar {
    /// Reads a piece at a position, and returns its fault, if it has one.
    ///
    /// # Errors
    ///
    /// `AllocError` where an allocation fails.
    pub fn read(
        &mut self,
        p: &Program,
        piece: Piece,
        at: u64,
    ) -> Result<Option<Fault<ProofKind>>, AllocError>
        ensures moved { OnOk result (own_of self.new ≡ moved (program_of p.now) piece (own_of self.old)) }
        ensures first_refusal { IfOk result (λ first_refusal. fault_of first_refusal ≡ refusal_of (program_of p.now) (own_of self.old) piece at) }
    {
        match piece {
            Piece::Name(word, symbol) => {
                let first_refusal = fault_of_name(p, self, word, symbol);
                self.symbol = symbol;
                self.coming = Next::Nothing;
                Ok(fault_at(first_refusal, at))
            }
            Piece::Number(number) => {
                let first_refusal = fault_of_number(p, self, number);
                self.number = number;
                self.coming = Next::Nothing;
                Ok(fault_at(first_refusal, at))
            }
            Piece::Sign(Sign::Minus) => {
                self.negative = true;
                Ok(None)
            }
            Piece::Place(symbol, behind) => self.read_place(p, symbol, behind, at),
            Piece::InBound(piece, len, true) => self.end_bound(p, piece, len, at),
            Piece::InBound(piece, len, false) => {
                self.pieces.push(piece, len)?;
                Ok(None)
            }
            Piece::First | Piece::Sign(_) | Piece::Wrong => Ok(None),
        }
    }

    // Reads a shut place.
    fn read_place(
        &mut self,
        p: &Program,
        symbol: u32,
        behind: Behind,
        at: u64,
    ) -> Result<Option<Fault<ProofKind>>, AllocError>
        ensures moved { OnOk result
            (own_of self.new ≡ moved (program_of p.now) (piece_of.Place symbol behind) (own_of self.old)) }
        ensures first_refusal { IfOk result (λ first_refusal. fault_of first_refusal
            ≡ refusal_of (program_of p.now) (own_of self.old) (piece_of.Place symbol behind) at) }
    {
        let first_refusal = fault_of_place(p, self, symbol, behind);
        if let Behind::Number(number) = behind {
            self.draft.shut.push((symbol, in_32(number)))?;
        }
        let position = u128::from(at) + name_bytes(p, symbol, behind);
        Ok(fault_at(first_refusal, in_64(position)))
    }

    // Reads the last piece of a bound, and with it the bound.
    fn end_bound(
        &mut self,
        p: &Program,
        piece: BoundPiece,
        len: u64,
        at: u64,
    ) -> Result<Option<Fault<ProofKind>>, AllocError>
        ensures moved { OnOk result
            (own_of self.new ≡ moved (program_of p.now) (piece_of.InBound piece len true) (own_of self.old)) }
        ensures first_refusal { IfOk result (λ first_refusal. fault_of first_refusal
            ≡ refusal_of (program_of p.now) (own_of self.old) (piece_of.InBound piece len true) at) }
    {
        self.pieces.push(piece, len)?;
        let pieces = replace(&mut self.pieces, Packed::new(self.alloc));
        let rest = pieces.rest();
        match read_bound(self.alloc, p.start_names.len(), rest)? {
            BoundRead::Parsed(bound) => {
                self.bound = bound;
                Ok(None)
            }
            BoundRead::Refused(fault) => {
                self.bound = Bound::Const(0);
                let position = position_in_bound(rest, fault.at, at);
                Ok(Some(Fault {
                    kind: fault.kind,
                    at: position,
                }))
            }
        }
    }
}
