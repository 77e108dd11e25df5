//! The pieces that a text begins with.

ghost use Rattle.std.specs.Prelude.{◌≡◌, ◌<◌, ◌≤◌, ◌∷◌, ◌+◌, length, IfOk, IsTrue};
ghost use Rattle.std.specs.List.{list_all};
ghost use Rattle.std.specs.Char.{is_ascii_digit};
ghost use Rattle.text_core.specs.NameIndex.{names_in};
ghost use Rattle.bound_text.specs.Lexing.{word_at, number_at, mark_at, lexeme_at};
ghost use Rattle.bound_text.specs.Printing.{piece_of};
ghost use Rattle.bound_text.specs.Lexemes.{lexeme_of};

use crate::piece::Piece;
use bound_expr::{CAP, Memory};
use std::alloc::AllocError;
use text_core::{
    NameIndex, begins_name, begins_with, digits_len, has_leading_zero, name_len, value_up_to,
};

/// A piece with the number of its bytes.
#[derive(Clone, Copy)]
pub struct Lexeme {
    pub piece: Piece,
    pub len: usize,
}

// The lexeme of a name that is followed by the bytes `behind`.
fn word(names: &NameIndex<'_>, name: &[u8], behind: &[u8]) -> Result<Lexeme, Memory>
    ensures piece { IfOk result (λ l. lexeme_of l ≡ word_at (names_in names.now) name.now behind.now) }
    ensures some { IfOk result (λ l. length name.now ≤ l.len) }
    ensures within { IfOk result (λ l. l.len ≤ length name.now + length behind.now) }
{
    let len = name.len();
    if begins_with(behind, b'(') {
        if name == b"max".as_slice() {
            Ok(Lexeme {
                piece: Piece::Maximum,
                len: len + 1,
            })
        } else {
            Ok(Lexeme {
                piece: Piece::Wrong,
                len,
            })
        }
    } else {
        let variable = u32::try_from(names.position_or_count(name)).map_err(|_| AllocError)?;
        Ok(Lexeme {
            piece: Piece::Variable(variable),
            len,
        })
    }
}

// The lexeme of digits.
fn number(digits: &[u8]) -> Lexeme
    requires { IsTrue (list_all is_ascii_digit digits.now) }
    ensures piece { lexeme_of result ≡ number_at digits.now }
    ensures len { result.len ≡ length digits.now }
{
    let len = digits.len();
    if has_leading_zero(digits) {
        Lexeme {
            piece: Piece::Wrong,
            len,
        }
    } else {
        Lexeme {
            piece: Piece::Number(value_up_to(CAP, digits)),
            len,
        }
    }
}

// The piece of a byte that begins neither a name nor a number.
fn mark(byte: u8) -> Piece
    ensures { piece_of result ≡ mark_at byte }
{
    match byte {
        b'(' => Piece::Open,
        b')' => Piece::Close,
        b'*' => Piece::Times,
        b'^' => Piece::Caret,
        b'+' => Piece::Plus,
        b' ' => Piece::Blank,
        b',' => Piece::Comma,
        _ => Piece::Wrong,
    }
}

/// The lexeme that a text begins with, where `first` is its first byte and `others` are those after it.
///
/// # Errors
///
/// `Memory` where an allocation fails, and where the variable's number is over 2^32-1.
pub fn next(names: &NameIndex<'_>, text: &[u8], first: u8, others: &[u8]) -> Result<Lexeme, Memory>
    requires { text.now ≡ first ∷ others.now }
    ensures piece { IfOk result (λ l. lexeme_of l ≡ lexeme_at (names_in names.now) first others.now) }
    ensures some { IfOk result (λ l. 0 < l.len) }
    ensures within { IfOk result (λ l. l.len ≤ length text.now) }
{
    if begins_name(first) {
        let (name, behind) = text.split_at(1 + name_len(others));
        word(names, name, behind)
    } else if first.is_ascii_digit() {
        Ok(number(&text[..1 + digits_len(others)]))
    } else {
        Ok(Lexeme {
            piece: mark(first),
            len: 1,
        })
    }
}
