//! Bounds inside proof files.

use crate::kind::ProofKind;
use bound_expr::Bound;
use bound_text::Piece as BoundPiece;
use text_grammar::Fault;

/// A piece of a bound, and the number of its bytes.
#[derive(Clone, Copy, Debug, PartialEq, Eq)]
pub struct Inner {
    pub piece: BoundPiece,
    pub len: u64,
}

/// The result of reading a bound.
#[derive(Debug, Drop)]
pub enum BoundRead {
    /// The bound that the pieces spell.
    Parsed(Bound),
    /// The first refusal, at the number of a piece, counted from 0, or after the last one.
    Refused(Fault<ProofKind>),
}
