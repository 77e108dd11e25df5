//! Cuts the bytes of a section into pieces.

ghost use Rattle.std.specs.Prelude.{◌≡◌, ◌+◌, ◌≤◌, ◌<◌, ◌∷◌, length, IsTrue};
ghost use Rattle.std.specs.List.{list_all};
ghost use Rattle.std.specs.Char.{is_ascii_digit};
ghost use Rattle.text_grammar.specs.text_core.Names.{continues_name};
ghost use Rattle.text_grammar.specs.text_core.Prefixes.{prefix};
ghost use Rattle.text_grammar.specs.Marks.{lexeme_of, lexer_of as plain_lexer};
ghost use Rattle.section_text.specs.Lexing as lexing;
ghost use Rattle.section_text.specs.Within.{lexes_within};

use crate::piece::{Piece, Sign, Sort, Word};
use linear_forms::CERTIFICATE_LIMIT;
use text_core::{begins_name, digits_len, has_leading_zero, name_len, value_up_to};
use text_grammar::{Lexeme, Lexer, OneMode};

/// The lexer of a text with this number of bytes.
#[derive(Clone, Copy, Debug, PartialEq, Eq)]
pub struct SectionLexer {
    pub len: usize,
}

/// The sort of a piece, and the number of its bytes.
#[derive(Clone, Copy, Debug, PartialEq, Eq)]
pub struct Sorted {
    pub sort: Sort,
    pub len: usize,
}

// The word that a name is.
fn word_of(name: &[u8]) -> Word
    ensures { result ≡ lexing.word_of name.now }
{
    if name == b"copy".as_slice() {
        Word::Copy
    } else if name == b"of".as_slice() {
        Word::Of
    } else if name == b"facts".as_slice() {
        Word::Facts
    } else if name == b"from".as_slice() {
        Word::From
    } else if name == b"rule".as_slice() {
        Word::Rule
    } else {
        case_word(name)
    }
}

// The word that a name is, among the words of cases.
fn case_word(name: &[u8]) -> Word
    ensures { result ≡ lexing.case_word name.now }
{
    if name == b"to".as_slice() {
        Word::To
    } else if name == b"by".as_slice() {
        Word::By
    } else if name == b"never".as_slice() {
        Word::Never
    } else if name == b"if".as_slice() {
        Word::If
    } else if name == b"then".as_slice() {
        Word::Then
    } else if name == b"else".as_slice() {
        Word::Else
    } else {
        Word::Other
    }
}

// The sort of a byte that begins neither a name nor a number.
fn sign_at(byte: u8) -> Sort
    ensures { result ≡ lexing.sign_at byte }
{
    match byte {
        b' ' => Sort::Sign(Sign::Blank),
        b'\n' => Sort::Sign(Sign::LineFeed),
        b'[' => Sort::Sign(Sign::OpenSquare),
        b']' => Sort::Sign(Sign::CloseSquare),
        b'(' => Sort::Sign(Sign::Open),
        b')' => Sort::Sign(Sign::Close),
        b';' => Sort::Sign(Sign::Semicolon),
        b'-' => Sort::Sign(Sign::Minus),
        _ => Sort::Wrong,
    }
}

// The name that bytes begin with.
fn leading_name<'b>(bytes: &'b [u8], first: u8, others: &[u8]) -> &'b [u8]
    requires { bytes.now ≡ first ∷ others.now }
    ensures { result.now ≡ first ∷ prefix continues_name others.now }
{
    let _first = first;
    &bytes[..1 + name_len(others)]
}

// The sort of a name, and the number of its bytes.
fn sorted_name(bytes: &[u8], first: u8, others: &[u8]) -> Sorted
    requires { bytes.now ≡ first ∷ others.now }
    ensures { lexing.sorted_of result ≡ lexing.name_at first others.now }
{
    let name = leading_name(bytes, first, others);
    Sorted {
        sort: Sort::Name(word_of(name)),
        len: name.len(),
    }
}

// The digits that bytes begin with.
fn leading_digits<'b>(bytes: &'b [u8], first: u8, others: &[u8]) -> &'b [u8]
    requires begins { bytes.now ≡ first ∷ others.now }
    requires digit { IsTrue (is_ascii_digit first) }
    ensures digits { result.now ≡ first ∷ prefix is_ascii_digit others.now }
    ensures all { IsTrue (list_all is_ascii_digit result.now) }
{
    let _first = first;
    &bytes[..1 + digits_len(others)]
}

// The sort of digits.
fn sort_of_digits(digits: &[u8]) -> Sort
    requires { IsTrue (list_all is_ascii_digit digits.now) }
    ensures { result ≡ lexing.sort_of_digits digits.now }
{
    if has_leading_zero(digits) {
        Sort::Wrong
    } else {
        Sort::Number(value_up_to(u128::from(CERTIFICATE_LIMIT) + 1, digits))
    }
}

// The sort of the piece that bytes begin with, and the number of its bytes.
fn sorted_at(bytes: &[u8], first: u8, others: &[u8]) -> Sorted
    requires { bytes.now ≡ first ∷ others.now }
    ensures { lexing.sorted_of result ≡ lexing.sorted_at first others.now }
{
    if begins_name(first) {
        sorted_name(bytes, first, others)
    } else if first.is_ascii_digit() {
        let digits = leading_digits(bytes, first, others);
        Sorted {
            sort: sort_of_digits(digits),
            len: digits.len(),
        }
    } else {
        Sorted {
            sort: sign_at(first),
            len: 1,
        }
    }
}

impl SectionLexer {
    // The lexeme that begins with these bytes, which are the last bytes of the text.
    fn pieced(&self, bytes: &[u8], sorted: Sorted) -> Lexeme<Piece>
        ensures { lexeme_of result ≡ lexing.pieced self.now.len bytes.now (lexing.sorted_of sorted) }
    {
        let piece = Piece {
            sort: sorted.sort,
            at: self.len.saturating_sub(bytes.len()) as u64,
            len: sorted.len as u64,
        };
        Lexeme {
            piece: Some(piece),
            len: sorted.len,
        }
    }
}

impl Lexer for SectionLexer {
    type Piece = Piece;

    type Mode = OneMode;

    ghost lexer_of = { λ lexer. plain_lexer (lexing.lexeme_at lexer.len) };

    fn lexeme(&self, mode: OneMode, bytes: &[u8], first: u8, others: &[u8]) -> Lexeme<Piece>
        requires { bytes.now ≡ first ∷ others.now }
        ensures { lexeme_of result ≡ lexing.lexeme_at self.now.len first others.now }
    {
        let _mode = mode;
        self.pieced(bytes, sorted_at(bytes, first, others))
    }

    fn behind(&self, mode: OneMode, piece: Option<Piece>) -> OneMode
        ensures { result ≡ (plain_lexer (lexing.lexeme_at self.now.len)).mode_behind mode piece }
    {
        let _piece = piece;
        mode
    }

    ghost within = { λ lexer mode. lexes_within lexer.len };
}
