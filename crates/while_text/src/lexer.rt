//! Cuts the bytes of a while program into tokens.

ghost use Rattle.std.specs.Prelude.{◌≡◌, ◌+◌, ◌≤◌, ◌<◌, ◌∷◌, length, IsTrue};
ghost use Rattle.std.specs.List.{list_all};
ghost use Rattle.std.specs.Char.{is_ascii_digit};
ghost use Rattle.text_grammar.specs.text_core.Names.{continues_name};
ghost use Rattle.text_grammar.specs.text_core.Prefixes.{prefix};
ghost use Rattle.text_grammar.specs.Marks.{lexeme_of, lexer_of as plain_lexer};
ghost use Rattle.while_text.specs.Lexing as lexing;
ghost use Rattle.while_text.specs.Within.{lexes_within};

use crate::piece::{Follower, Piece, Sort};
use model::COEFFICIENT_LIMIT;
use text_core::{begins_name, begins_with, digits_len, is_white_space, name_len, value_up_to};
use text_grammar::{Lexeme, Lexer, OneMode};

/// The lexer of a text with this number of bytes.
#[derive(Clone, Copy, Debug, PartialEq, Eq)]
pub struct WhileLexer {
    pub len: usize,
}

// How the next byte that is no white space continues an expression.
fn follower_of(bytes: &[u8]) -> Follower
    ensures { result ≡ lexing.follower_of bytes.now }
{
    for byte in bytes {
        if !is_white_space(*byte) {
            return follower_in(*byte);
        }
    }
    Follower::Other
}

// How a byte continues an expression.
fn follower_in(byte: u8) -> Follower
    ensures { result ≡ lexing.follower_in byte }
{
    if byte == b'+' || byte == b'-' || byte == b'*' {
        Follower::Operator
    } else if byte == b'^' {
        Follower::Caret
    } else {
        Follower::Other
    }
}

// The keyword that a word is, or the sort of names.
fn word_sort(name: &[u8]) -> Sort
    ensures { result ≡ lexing.word_sort name.now }
{
    if name == b"input".as_slice() {
        Sort::Input
    } else if name == b"skip".as_slice() {
        Sort::Skip
    } else if name == b"while".as_slice() {
        Sort::While
    } else if name == b"if".as_slice() {
        Sort::If
    } else if name == b"else".as_slice() {
        Sort::Else
    } else if name == b"TRUE".as_slice() || name == b"true".as_slice() {
        Sort::Truth
    } else {
        Sort::Name
    }
}

// The lexeme of a token of this sort and number of bytes.
fn lexeme(sort: Sort, len: usize) -> Lexeme<Sort>
    ensures { lexeme_of result ≡ lexing.lexeme sort len }
{
    Lexeme {
        piece: Some(sort),
        len,
    }
}

// The lexeme of a token of two bytes if the second one follows, and else that of the token of one byte.
fn pair_or(second: u8, two: Sort, one: Sort, others: &[u8]) -> Lexeme<Sort>
    ensures { lexeme_of result ≡ lexing.pair_or second two one others.now }
{
    if begins_with(others, second) {
        lexeme(two, 2)
    } else {
        lexeme(one, 1)
    }
}

// The sort of a byte that is a token by itself, or of a byte that begins no token.
fn sign_at(byte: u8) -> Sort
    ensures { result ≡ lexing.single_at byte }
{
    match byte {
        b'?' => Sort::Question,
        b';' => Sort::Semicolon,
        b',' => Sort::Comma,
        b'(' => Sort::Open,
        b')' => Sort::Close,
        b'{' => Sort::BlockOpen,
        b'}' => Sort::BlockClose,
        b'+' => Sort::Plus,
        b'-' => Sort::Minus,
        b'*' => Sort::Times,
        b'^' => Sort::Caret,
        _ if byte > 127 => Sort::Strange,
        _ => Sort::Wrong,
    }
}

// The lexeme of a byte that is neither white space nor begins a name or number.
fn sign_lexeme(first: u8, others: &[u8]) -> Lexeme<Sort>
    ensures { lexeme_of result ≡ lexing.sign_at first others.now }
{
    match first {
        b':' => pair_or(b'=', Sort::Becomes, Sort::Wrong, others),
        b'&' => pair_or(b'&', Sort::Joint, Sort::Wrong, others),
        b'/' => pair_or(b'\\', Sort::Joint, Sort::Wrong, others),
        b'>' => pair_or(b'=', Sort::AtLeast, Sort::MoreThan, others),
        b'<' => pair_or(b'=', Sort::AtMost, Sort::LessThan, others),
        b'=' => pair_or(b'=', Sort::Equal, Sort::Equal, others),
        _ => lexeme(sign_at(first), 1),
    }
}

// The name at the beginning of bytes.
fn leading_name<'b>(bytes: &'b [u8], first: u8, others: &[u8]) -> &'b [u8]
    requires { bytes.now ≡ first ∷ others.now }
    ensures { result.now ≡ first ∷ prefix continues_name others.now }
{
    let _first = first;
    &bytes[..1 + name_len(others)]
}

// The lexeme of a name.
fn name_lexeme(bytes: &[u8], first: u8, others: &[u8]) -> Lexeme<Sort>
    requires { bytes.now ≡ first ∷ others.now }
    ensures { lexeme_of result ≡ lexing.name_at first others.now }
{
    let name = leading_name(bytes, first, others);
    lexeme(word_sort(name), name.len())
}

// The digits at the beginning of bytes.
fn leading_digits<'b>(bytes: &'b [u8], first: u8, others: &[u8]) -> &'b [u8]
    requires begins { bytes.now ≡ first ∷ others.now }
    requires digit { IsTrue (is_ascii_digit first) }
    ensures digits { result.now ≡ first ∷ prefix is_ascii_digit others.now }
    ensures all { IsTrue (list_all is_ascii_digit result.now) }
{
    let _first = first;
    &bytes[..1 + digits_len(others)]
}

// The lexeme of a number.
fn number_lexeme(bytes: &[u8], first: u8, others: &[u8]) -> Lexeme<Sort>
    requires begins { bytes.now ≡ first ∷ others.now }
    requires digit { IsTrue (is_ascii_digit first) }
    ensures { lexeme_of result ≡ lexing.number_at first others.now }
{
    let digits = leading_digits(bytes, first, others);
    let value = value_up_to(u128::from(COEFFICIENT_LIMIT) + 1, digits);
    lexeme(Sort::Number(value), digits.len())
}

// The lexeme at the beginning of bytes: a token or white space.
fn sort_at(bytes: &[u8], first: u8, others: &[u8]) -> Lexeme<Sort>
    requires { bytes.now ≡ first ∷ others.now }
    ensures { lexeme_of result ≡ lexing.sort_at first others.now }
{
    if is_white_space(first) {
        Lexeme {
            piece: None,
            len: 1,
        }
    } else if begins_name(first) {
        name_lexeme(bytes, first, others)
    } else if first.is_ascii_digit() {
        number_lexeme(bytes, first, others)
    } else {
        sign_lexeme(first, others)
    }
}

impl WhileLexer {
    // The lexeme with its token's position and follower, for the last bytes of the text.
    fn pieced(&self, bytes: &[u8], lexeme: Lexeme<Sort>) -> Lexeme<Piece>
        requires { lexeme.len ≤ length bytes.now }
        ensures { lexeme_of result ≡ lexing.pieced self.now.len bytes.now (lexeme_of lexeme) }
    {
        let len = lexeme.len;
        let sort = match lexeme.piece {
            Some(sort) => sort,
            None => return Lexeme { piece: None, len },
        };
        let piece = Piece {
            sort,
            at: self.len.saturating_sub(bytes.len()) as u64,
            len: len as u64,
            follower: follower_of(&bytes[len..]),
        };
        Lexeme {
            piece: Some(piece),
            len,
        }
    }
}

impl Lexer for WhileLexer {
    type Piece = Piece;

    type Mode = OneMode;

    ghost lexer_of = { λ lexer. plain_lexer (lexing.lexeme_at lexer.len) };

    fn lexeme(&self, mode: OneMode, bytes: &[u8], first: u8, others: &[u8]) -> Lexeme<Piece>
        requires { bytes.now ≡ first ∷ others.now }
        ensures { lexeme_of result ≡ lexing.lexeme_at self.now.len first others.now }
    {
        let _mode = mode;
        self.pieced(bytes, sort_at(bytes, first, others))
    }

    fn behind(&self, mode: OneMode, piece: Option<Piece>) -> OneMode
        ensures { result ≡ (plain_lexer (lexing.lexeme_at self.now.len)).mode_behind mode piece }
    {
        let _piece = piece;
        mode
    }

    ghost within = { λ lexer mode. lexes_within lexer.len };
}
