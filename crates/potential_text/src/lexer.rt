//! Cuts the bytes of lines into pieces.

ghost use Rattle.std.specs.Prelude.{◌≡◌, ◌∷◌, IsTrue};
ghost use Rattle.std.specs.List.{list_all};
ghost use Rattle.std.specs.Char.{is_ascii_digit};
ghost use Rattle.text_grammar.specs.Marks.{lexeme_of, lexer_of as plain_lexer};
ghost use Rattle.potential_text.specs.Lexing as lexing;
ghost use Rattle.potential_text.specs.Within.{lexes_within};

use crate::piece::{Piece, Sort};
use crate::words::{sign_at, word_of};
use lexing_laws::{leading_digits, leading_name};
use signed_bounds::CONSTANT_LIMIT;
use text_core::{begins_name, has_leading_zero, value_up_to};
use text_grammar::{Lexeme, Lexer, OneMode};

/// The lexer of a text with this number of bytes.
#[derive(Clone, Copy, Debug, PartialEq, Eq)]
pub struct LineLexer {
    pub len: usize,
}

/// The sort of a piece, and the number of its bytes.
#[derive(Clone, Copy, Debug, PartialEq, Eq)]
pub struct Sorted {
    pub sort: Sort,
    pub len: usize,
}

// The sort of a name, and the number of its bytes.
fn sorted_name(bytes: &[u8], first: u8, others: &[u8]) -> Sorted
    requires { bytes.now ≡ first ∷ others.now }
    ensures { lexing.sorted_of result ≡ lexing.name_at first others.now }
{
    let name = leading_name(bytes, first, others);
    Sorted {
        sort: Sort::Name(word_of(name)),
        len: name.len(),
    }
}

// The sort of digits.
fn sort_of_digits(digits: &[u8]) -> Sort
    requires { IsTrue (list_all is_ascii_digit digits.now) }
    ensures { result ≡ lexing.sort_of_digits digits.now }
{
    if has_leading_zero(digits) {
        Sort::Wrong
    } else {
        Sort::Number(value_up_to(CONSTANT_LIMIT + 1, digits))
    }
}

// The sort of the piece that bytes begin with, and the number of its bytes.
fn sorted_at(bytes: &[u8], first: u8, others: &[u8]) -> Sorted
    requires { bytes.now ≡ first ∷ others.now }
    ensures { lexing.sorted_of result ≡ lexing.sorted_at first others.now }
{
    if begins_name(first) {
        sorted_name(bytes, first, others)
    } else if first.is_ascii_digit() {
        let digits = leading_digits(bytes, first, others);
        Sorted {
            sort: sort_of_digits(digits),
            len: digits.len(),
        }
    } else {
        Sorted {
            sort: sign_at(first),
            len: 1,
        }
    }
}

impl LineLexer {
    // The lexeme of bytes with which the text ends.
    fn pieced(&self, bytes: &[u8], sorted: Sorted) -> Lexeme<Piece>
        ensures { lexeme_of result ≡ lexing.pieced self.now.len bytes.now (lexing.sorted_of sorted) }
    {
        let piece = Piece {
            sort: sorted.sort,
            at: self.len.saturating_sub(bytes.len()) as u64,
            len: sorted.len as u64,
        };
        Lexeme {
            piece: Some(piece),
            len: sorted.len,
        }
    }
}

impl Lexer for LineLexer {
    type Piece = Piece;

    type Mode = OneMode;

    ghost lexer_of = { λ lexer. plain_lexer (lexing.lexeme_at lexer.len) };

    fn lexeme(&self, mode: OneMode, bytes: &[u8], first: u8, others: &[u8]) -> Lexeme<Piece>
        requires { bytes.now ≡ first ∷ others.now }
        ensures { lexeme_of result ≡ lexing.lexeme_at self.now.len first others.now }
    {
        let _mode = mode;
        self.pieced(bytes, sorted_at(bytes, first, others))
    }

    fn behind(&self, mode: OneMode, piece: Option<Piece>) -> OneMode
        ensures { result ≡ (plain_lexer (lexing.lexeme_at self.now.len)).mode_behind mode piece }
    {
        let _piece = piece;
        mode
    }

    ghost within = { λ lexer mode. lexes_within lexer.len };
}
