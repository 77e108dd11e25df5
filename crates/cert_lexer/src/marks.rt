//! Marks of packed pieces: a byte for each piece.

ghost use Rattle.std.specs.Prelude.{◌≡◌, IfSome, Some};
ghost use Rattle.cert_lexer.specs.Packing.{inner_with, short_inner, short_piece as piece_of_short};
ghost use Rattle.cert_lexer.specs.Packing.{mark_source as source_at};
ghost use Rattle.cert_lexer.specs.declared.marks.Source.TheVariants.{Known};

use crate::inner::Inner;
use bound_text::Piece as BoundPiece;

/// A mark: that of a piece that is always spelled in one way, or that of a piece whose value and length are stored in
/// the list of short or of long ones.
#[derive(Clone, Copy)]
pub(crate) enum Mark {
    Maximum,
    Open,
    Close,
    Times,
    Caret,
    Plus,
    Blank,
    Comma,
    Wrong,
    Short,
    Long,
}

/// The kind of a short piece.
#[derive(Clone, Copy)]
pub(crate) enum ShortKind {
    Variable,
    Number,
    Wrong,
}

/// A piece with a value below 2^32 and fewer than 2^16 bytes.
#[derive(Clone, Copy)]
pub(crate) struct Short {
    pub value: u32,
    pub len: u16,
    pub kind: ShortKind,
}

/// Where the piece of a mark is found: the mark determines it, or it is the next of the short or of the long pieces.
#[derive(Clone, Copy)]
pub(crate) enum Source {
    Known(Inner),
    Shorts,
    Longs,
}

/// Where the piece of a mark is found.
pub(crate) fn mark_source(mark: Mark) -> Source
    ensures { result ≡ source_at mark }
{
    let (piece, len) = match mark {
        Mark::Maximum => (BoundPiece::Maximum, 4),
        Mark::Open => (BoundPiece::Open, 1),
        Mark::Close => (BoundPiece::Close, 1),
        Mark::Times => (BoundPiece::Times, 1),
        Mark::Caret => (BoundPiece::Caret, 1),
        Mark::Plus => (BoundPiece::Plus, 1),
        Mark::Blank => (BoundPiece::Blank, 1),
        Mark::Comma => (BoundPiece::Comma, 1),
        Mark::Wrong => (BoundPiece::Wrong, 1),
        Mark::Short => return Source::Shorts,
        Mark::Long => return Source::Longs,
    };
    Source::Known(Inner { piece, len })
}

/// The mark of a piece that is always spelled in one way, if it is one.
pub(crate) fn mark_of(piece: BoundPiece, len: u64) -> Option<Mark>
    ensures { IfSome result (λ mark. source_at mark ≡ Known (inner_with piece len)) }
{
    match (piece, len) {
        (BoundPiece::Maximum, 4) => Some(Mark::Maximum),
        (BoundPiece::Open, 1) => Some(Mark::Open),
        (BoundPiece::Close, 1) => Some(Mark::Close),
        (BoundPiece::Times, 1) => Some(Mark::Times),
        (BoundPiece::Caret, 1) => Some(Mark::Caret),
        (BoundPiece::Plus, 1) => Some(Mark::Plus),
        (BoundPiece::Blank, 1) => Some(Mark::Blank),
        (BoundPiece::Comma, 1) => Some(Mark::Comma),
        (BoundPiece::Wrong, 1) => Some(Mark::Wrong),
        _ => None,
    }
}

/// The short form of a piece, if its value and length are small enough.
pub(crate) fn short_of(piece: BoundPiece, len: u64) -> Option<Short>
    ensures { IfSome result (λ short. short_inner short ≡ inner_with piece len) }
{
    let (kind, value) = match piece {
        BoundPiece::Variable(variable) => (ShortKind::Variable, u128::from(variable)),
        BoundPiece::Number(number) => (ShortKind::Number, number),
        BoundPiece::Wrong => (ShortKind::Wrong, 0),
        _ => return None,
    };
    if value < 1 << 32 && len < 1 << 16 {
        Some(Short {
            value: value as u32,
            len: len as u16,
            kind,
        })
    } else {
        None
    }
}

/// The piece of a short form.
pub(crate) fn short_piece(short: Short) -> Inner
    ensures { result ≡ short_inner short }
{
    let piece = match short.kind {
        ShortKind::Variable => BoundPiece::Variable(short.value),
        ShortKind::Number => BoundPiece::Number(u128::from(short.value)),
        ShortKind::Wrong => BoundPiece::Wrong,
    };
    Inner {
        piece,
        len: u64::from(short.len),
    }
}
