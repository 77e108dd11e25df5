//! Why a text breaks off.

ghost use Rattle.std.specs.Prelude.{◌≡◌};
ghost use Rattle.expr_reader.specs.Views.{piece_of as inner_plain};
ghost use Rattle.its_text.specs.StateFaults.{is_no_name as plain_no_name};
ghost use Rattle.its_reader.specs.Faults.{kind_of};
ghost use Rattle.its_reader.specs.FaultTests.{break_kind_in, wants_left};
ghost use Rattle.its_reader.specs.Views.{piece_of as plain_of};

use crate::fault::Kind;
use crate::parser_state::ParserState;
use crate::piece::Piece;
use expr_reader::Piece as Inner;

/// The kind of refusal for a text that breaks off at the next piece.
pub(crate) fn break_kind(state: ParserState, next: Piece<'_>) -> Kind
    ensures { kind_of result ≡ break_kind_in (wants_left state) (plain_of next.entry) }
{
    break_kind_of_wanted(state.wants_left(), next)
}

// The kind of refusal for a text that breaks off at this piece, by whether a left argument must follow.
fn break_kind_of_wanted(wanted: bool, next: Piece<'_>) -> Kind
    ensures { kind_of result ≡ break_kind_in wanted (plain_of next.entry) }
{
    match next {
        Piece::Strange => Kind::NotAscii,
        Piece::Or => Kind::Disjunction,
        Piece::Inner(piece) => {
            if wanted && is_no_name(piece) {
                Kind::LeftNotVariable
            } else {
                Kind::Syntax
            }
        }
        _ => Kind::Syntax,
    }
}

// Whether a piece is a number, a bracket or a minus, and so begins a left argument that is no variable.
fn is_no_name(piece: Inner<'_>) -> bool
    ensures { result ≡ plain_no_name (inner_plain piece.entry) }
{
    matches!(piece, Inner::Digits(_) | Inner::Open | Inner::Minus)
}
