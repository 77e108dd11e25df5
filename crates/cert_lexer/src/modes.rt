//! The modes of the lexer: what the pieces read so far leave open.

ghost use Rattle.std.specs.Prelude.{◌≡◌};
ghost use Rattle.cert_lexer.specs.Lexing.{depth_behind as depth_behind_piece, ends_before as ends_before_bytes};
ghost use Rattle.cert_lexer.specs.Lexing.{ends_bound as ends_bound_at, mode_with as mode_with_piece};
ghost use Rattle.cert_lexer.specs.Lexing.{pieces_behind as pieces_behind_piece, plain_behind as plain_behind_piece};

use crate::piece::{Mode, Piece, Sign, Word};
use bound_text::Piece as BoundPiece;

/// Whether a byte ends a bound with this many open brackets.
pub fn ends_bound(depth: u64, byte: u8) -> bool
    ensures { result ≡ ends_bound_at depth byte }
{
    byte == b';' || byte == b'}' || byte == b'\n' || (byte == b')' && depth == 0)
}

// The mode after a piece, if no list and no bound is open before it.
fn plain_behind(piece: Piece) -> Mode
    ensures { result ≡ plain_behind_piece piece }
{
    match piece {
        Piece::Name(Word::Shut, _) => Mode::InShut,
        Piece::Sign(Sign::Close) => Mode::Closed,
        _ => Mode::Plain,
    }
}

/// Whether a bound with this many open brackets ends before these bytes.
pub fn ends_before(depth: u64, bytes: &[u8]) -> bool
    ensures { result ≡ ends_before_bytes depth bytes.now }
{
    match bytes {
        [first, ..] => ends_bound(depth, *first),
        [] => true,
    }
}

/// The number of open brackets after a piece of a bound.
pub fn depth_behind(depth: u64, piece: BoundPiece) -> u64
    ensures { result ≡ depth_behind_piece depth piece }
{
    match piece {
        BoundPiece::Open | BoundPiece::Maximum => depth.saturating_add(1),
        BoundPiece::Close => depth.saturating_sub(1),
        _ => depth,
    }
}

// The number of pieces of a bound before the next piece; 0 after the bound's last one.
fn pieces_behind(before: u64, last: bool) -> u64
    ensures { result ≡ pieces_behind_piece before last }
{
    if last { 0 } else { before.saturating_add(1) }
}

/// The mode after a piece.
pub fn mode_with(mode: Mode, piece: Piece) -> Mode
    ensures { result ≡ mode_with_piece mode piece }
{
    match (mode, piece) {
        (Mode::InShut, Piece::Sign(Sign::CloseSquare)) => Mode::Plain,
        (Mode::InShut, _) => Mode::InShut,
        (Mode::Closed, Piece::Sign(Sign::Blank)) => Mode::ClosedBlank,
        (Mode::ClosedBlank, Piece::Name(Word::To, _)) => Mode::To,
        (Mode::To, Piece::Sign(Sign::Blank)) => Mode::InBound(0, 0),
        (Mode::InBound(depth, before), Piece::InBound(piece, _, last)) => {
            Mode::InBound(depth_behind(depth, piece), pieces_behind(before, last))
        }
        (_, piece) => plain_behind(piece),
    }
}
