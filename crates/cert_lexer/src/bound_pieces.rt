//! The pieces of a bound in a proof file.

ghost use Rattle.std.specs.Prelude.{◌≡◌, ◌∷◌, ◌+◌, ◌-◌, ◌^◌, ℕ, min, length, IsTrue};
ghost use Rattle.std.specs.List.{list_all};
ghost use Rattle.std.specs.Char.{is_ascii_digit};
ghost use Rattle.text_grammar.specs.text_core.NameIndex.{names_in};
ghost use Rattle.text_grammar.specs.text_core.Names.{position_of};
ghost use Rattle.bound_text.specs.Lexing.{word_at, number_at, mark_at, lexeme_at};
ghost use Rattle.cert_lexer.specs.Lexing.{bound_piece, variable_at};

use crate::names::{leading_digits, leading_name, number_of};
use bound_expr::CAP;
use bound_text::Piece as BoundPiece;
use text_core::{NameIndex, begins_name, begins_with, has_leading_zero, value_up_to};

/// A piece of a bound with the number of its bytes.
#[derive(Clone, Copy)]
pub struct BoundLexeme {
    pub piece: BoundPiece,
    pub len: usize,
}

// The sum of two numbers, or the greatest number that a `u32` holds.
fn sum_of(position: usize, before: u64) -> u32
    ensures { result ≡ min (position + before) (2 ^ 32 - 1) }
{
    let sum = (position as u64).saturating_add(before);
    sum.min(u64::from(u32::MAX)) as u32
}

// The variable of a name after this many pieces of the bound. Each occurrence of a name that isn't listed is a variable
// of its own.
fn variable(names: &NameIndex<'_>, before: u64, name: &[u8]) -> u32
    ensures { result ≡ variable_at (length (names_in names.now)) before (position_of name.now (names_in names.now)) }
{
    match names.position(name) {
        Some(position) => number_of(position),
        None => sum_of(names.position_or_count(name), before),
    }
}

// The piece of a name that is followed by the bytes `behind`, after this many pieces of the bound.
fn word(names: &NameIndex<'_>, before: u64, name: &[u8], behind: &[u8]) -> BoundLexeme
    ensures piece { result.piece
        ≡ bound_piece (length (names_in names.now)) before (word_at (names_in names.now) name.now behind.now).piece }
    ensures len { result.len ≡ (word_at (names_in names.now) name.now behind.now).len }
{
    let len = name.len();
    if begins_with(behind, b'(') {
        if name == b"max".as_slice() {
            BoundLexeme {
                piece: BoundPiece::Maximum,
                len: len + 1,
            }
        } else {
            BoundLexeme {
                piece: BoundPiece::Wrong,
                len,
            }
        }
    } else {
        BoundLexeme {
            piece: BoundPiece::Variable(variable(names, before, name)),
            len,
        }
    }
}

// The lexeme of digits.
fn number(digits: &[u8]) -> BoundLexeme
    requires { IsTrue (list_all is_ascii_digit digits.now) }
    ensures piece { (n before : ℕ) → result.piece ≡ bound_piece n before (number_at digits.now).piece }
    ensures len { result.len ≡ (number_at digits.now).len }
{
    let piece = if has_leading_zero(digits) {
        BoundPiece::Wrong
    } else {
        BoundPiece::Number(value_up_to(CAP, digits))
    };
    BoundLexeme {
        piece,
        len: digits.len(),
    }
}

// The piece of a byte that begins neither a name nor a number.
fn mark(byte: u8) -> BoundPiece
    ensures { (n before : ℕ) → result ≡ bound_piece n before (mark_at byte) }
{
    match byte {
        b'(' => BoundPiece::Open,
        b')' => BoundPiece::Close,
        b'*' => BoundPiece::Times,
        b'^' => BoundPiece::Caret,
        b'+' => BoundPiece::Plus,
        b' ' => BoundPiece::Blank,
        b',' => BoundPiece::Comma,
        _ => BoundPiece::Wrong,
    }
}

/// The first piece of a bound in bytes (whose first byte is passed separately, too), over arguments with these names,
/// after this many pieces of the bound.
pub fn bound_lexeme(
    names: &NameIndex<'_>,
    before: u64,
    bytes: &[u8],
    first: u8,
    others: &[u8],
) -> BoundLexeme
    requires { bytes.now ≡ first ∷ others.now }
    ensures piece { result.piece ≡ bound_piece (length (names_in names.now)) before
        (lexeme_at (names_in names.now) first others.now).piece }
    ensures len { result.len ≡ (lexeme_at (names_in names.now) first others.now).len }
{
    if begins_name(first) {
        let (name, behind) = leading_name(bytes, first, others);
        word(names, before, name, behind)
    } else if first.is_ascii_digit() {
        number(leading_digits(bytes, first, others))
    } else {
        BoundLexeme {
            piece: mark(first),
            len: 1,
        }
    }
}
