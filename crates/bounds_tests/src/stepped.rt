//! Bounds inside a proof file: a part that began before a fault can turn out to be too deep, and is then refused first.

use crate::inside::{Found, first_piece};
use bound_expr::{Bound, Memory};
use bound_text::{Fault, Piece};
use cert_lexer::{BOUND_LEVELS, BoundRead, Packed, ProofKind, read_bound};
use std::alloc::Global;

// The pieces of a text, the position at which each of them begins, and the position behind them.
#[derive(Drop)]
struct Pieces {
    packed: Packed,
    starts: Vec<usize>,
    end: usize,
}

impl Pieces {
    // Appends a piece of the text.
    fn push(&mut self, piece: Piece, len: usize) -> Result<(), Memory> {
        self.packed.push(piece, len as u64)?;
        self.starts.push(self.end)?;
        self.end = self.end.saturating_add(len);
        Ok(())
    }

    // Appends a piece that isn't in the text.
    fn push_around(&mut self, piece: Piece) -> Result<(), Memory> {
        self.packed.push(piece, 1)?;
        self.starts.push(self.end)?;
        Ok(())
    }
}

// The pieces of the bound that begins at a position, in this many exponents. Where it isn't closed, they are broken off.
fn pieces_at(alloc: Global, text: &[u8], begins: usize, around: u64) -> Result<Pieces, Memory> {
    let mut pieces = Pieces {
        packed: Packed::new(alloc),
        starts: Vec::new(alloc),
        end: begins,
    };
    for _exponent in 0..around {
        pieces.push_around(Piece::Number(2))?;
        pieces.push_around(Piece::Caret)?;
        pieces.push_around(Piece::Open)?;
    }
    for _piece in 0..text.len() {
        let rest = text.get(pieces.end..).unwrap_or(&[]);
        if rest.is_empty() {
            pieces.push_around(Piece::Wrong)?;
            return Ok(pieces);
        }
        if rest.first() == Some(&b']') {
            break;
        }
        let (piece, len) = first_piece(rest);
        pieces.push(piece, len)?;
    }
    for _exponent in 0..around {
        pieces.push_around(Piece::Close)?;
    }
    Ok(pieces)
}

// The exponent of a power.
fn exponent(bound: Bound) -> Bound {
    match bound {
        Bound::Power(_, exponent) => Box::into_inner(exponent),
        other => other,
    }
}

// The kind of a refusal, as of a bound alone.
fn fault(kind: ProofKind) -> Fault {
    match kind {
        ProofKind::Syntax => Fault::Syntax,
        ProofKind::NumberTooLarge => Fault::NumberTooLarge,
        ProofKind::TooDeep => Fault::TooDeep,
        ProofKind::BadReference => Fault::UnknownName,
        ProofKind::Limit => Fault::TooLarge,
    }
}

/// Reads the bound that begins at a position and may have this many levels: in a proof file, in as many exponents as
/// leave it so many.
pub(crate) fn stepped_at(
    alloc: Global,
    text: &[u8],
    begins: usize,
    most: u64,
) -> Result<Found, Memory> {
    let around = BOUND_LEVELS.saturating_sub(most);
    let pieces = pieces_at(alloc, text, begins, around)?;
    match read_bound(alloc, 2, pieces.packed.rest())? {
        BoundRead::Parsed(bound) => {
            let mut inner = bound;
            for _exponent in 0..around {
                inner = exponent(inner);
            }
            Ok(Found::Parsed(inner, pieces.end))
        }
        BoundRead::Refused(refusal) => {
            let number = usize::try_from(refusal.at).unwrap_or(usize::MAX);
            let at = pieces.starts.get(number).copied().unwrap_or(pieces.end);
            Ok(Found::Refused(fault(refusal.kind), at))
        }
    }
}
