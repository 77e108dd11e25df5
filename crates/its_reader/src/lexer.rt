//! The tokens of a text, one after the other.

ghost use Rattle.std.specs.Prelude.{◌≡◌, ◌∷◌, ◌≤◌, ◌<◌, ◌+◌, ◌^◌, length};
ghost use Rattle.text_core.specs.Bytes.{is_white_space as is_white};
ghost use Rattle.text_core.specs.Names.{begins_name as begins};
ghost use Rattle.its_text.specs.Lexing as lexing;
ghost use Rattle.text_core.specs.Tokens.{token_then};
ghost use Rattle.its_reader.specs.Views.{piece_of, maybe_of, lexeme_of, mode_of, depth_of, tokens_in, listed};
ghost use Rattle.expr_reader.specs.Views.{sign_of};

use crate::comment::comment_len;
use crate::mode::{Mode, mode_behind};
use crate::piece::{Piece, Token};
use expr_reader::{Joint, Piece as Inner, Sign};
use text_core::{begins_name, begins_with, digits_len, is_white_space, name_len};

/// A piece, or none for white space, with the number of bytes it takes.
#[derive(Clone, Copy)]
pub(crate) struct Lexeme<'a> {
    pub piece: Option<Piece<'a>>,
    pub len: usize,
}

fn found(piece: Piece<'_>, len: usize) -> Lexeme<'_>
    ensures { lexeme_of result ≡ lexing.lexeme (piece_of piece.entry) len }
{
    Lexeme {
        piece: Some(piece),
        len,
    }
}

// One of two pieces, depending on whether `=` follows.
fn related<'a>(bytes: &[u8], with_equal: Sign, alone: Sign) -> Lexeme<'a>
    ensures { lexeme_of result ≡ lexing.related_at (sign_of with_equal) (sign_of alone) bytes.now }
{
    if begins_with(bytes, b'=') {
        found(Piece::Inner(Inner::Related(with_equal)), 2)
    } else {
        found(Piece::Inner(Inner::Related(alone)), 1)
    }
}

fn minus<'a>(bytes: &[u8]) -> Lexeme<'a>
    ensures { lexeme_of result ≡ lexing.minus_at bytes.now }
{
    if begins_with(bytes, b'>') {
        found(Piece::Arrow, 2)
    } else if begins_with(bytes, b'{') {
        found(Piece::CostOpen, 2)
    } else {
        found(Piece::Inner(Inner::Minus), 1)
    }
}

// A piece of two bytes, if the second one follows.
fn pair<'a>(bytes: &[u8], second: u8, piece: Piece<'a>) -> Lexeme<'a>
    ensures { lexeme_of result ≡ lexing.pair_at second (piece_of piece.entry) bytes.now }
{
    if begins_with(bytes, second) {
        found(piece, 2)
    } else {
        found(Piece::Wrong, 1)
    }
}

fn guard_mark<'a>(bytes: &[u8]) -> Lexeme<'a>
    ensures { lexeme_of result ≡ lexing.guard_mark_at bytes.now }
{
    match bytes {
        [first, second, ..] => {
            if *first == b'|' && *second == b':' {
                found(Piece::GuardMark, 3)
            } else {
                found(Piece::Wrong, 1)
            }
        }
        [_] => found(Piece::Wrong, 1),
        [] => found(Piece::Wrong, 1),
    }
}

// The piece of a byte that begins no name and no number.
fn mark<'a>(first: u8, bytes: &[u8]) -> Lexeme<'a>
    ensures { lexeme_of result ≡ lexing.mark_at first bytes.now }
{
    match first {
        b'(' => found(Piece::Inner(Inner::Open), 1),
        b')' => found(Piece::Inner(Inner::Close), 1),
        b',' => found(Piece::Comma, 1),
        b'[' => found(Piece::SquareOpen, 1),
        b']' => found(Piece::SquareClose, 1),
        b'+' => found(Piece::Inner(Inner::Plus), 1),
        b'*' => found(Piece::Inner(Inner::Times), 1),
        b'^' => found(Piece::Inner(Inner::Caret), 1),
        b'-' => minus(bytes),
        b'>' => related(bytes, Sign::AtLeast, Sign::MoreThan),
        b'<' => related(bytes, Sign::AtMost, Sign::LessThan),
        b'=' => related(bytes, Sign::DoubleEqual, Sign::Equal),
        b':' => guard_mark(bytes),
        b'&' => pair(bytes, b'&', Piece::Inner(Inner::Joining(Joint::Ampersands))),
        b'/' => pair(bytes, b'\\', Piece::Inner(Inner::Joining(Joint::Wedge))),
        b'|' => pair(bytes, b'|', Piece::Or),
        b'}' => pair(bytes, b'>', Piece::CostClose),
        128.. => found(Piece::Strange, 1),
        _ => found(Piece::Wrong, 1),
    }
}

// The lexeme that a text begins with, given its first byte and the others.
fn lexeme_at<'a>(text: &'a [u8], first: u8, others: &'a [u8]) -> Lexeme<'a>
    requires { text.now ≡ first ∷ others.now }
    ensures { lexeme_of result ≡ lexing.lexeme_at first others.now }
{
    if is_white_space(first) {
        Lexeme {
            piece: None,
            len: 1,
        }
    } else if begins_name(first) {
        let len = 1 + name_len(others);
        found(Piece::Inner(Inner::Word(&text[..len])), len)
    } else if first.is_ascii_digit() {
        let len = 1 + digits_len(others);
        found(Piece::Inner(Inner::Digits(&text[..len])), len)
    } else {
        mark(first, others)
    }
}

// The text of the comment that this text begins with.
fn remark<'a>(text: &'a [u8], first: u8, others: &'a [u8]) -> Lexeme<'a>
    requires { text.now ≡ first ∷ others.now }
    ensures { lexeme_of result ≡ lexing.remark_of first others.now (lexing.closing_at (first ∷ others.now) 0) }
{
    match comment_len(text) {
        Some(len) => found(Piece::Remark(&text[..len]), len),
        None => Lexeme {
            piece: None,
            len: text.len(),
        },
    }
}

// The lexeme that a text begins with, depending on the mode.
fn lexeme_in<'a>(mode: Mode, text: &'a [u8], first: u8, others: &'a [u8]) -> Lexeme<'a>
    requires { text.now ≡ first ∷ others.now }
    ensures { lexeme_of result ≡ lexing.lexeme_in (mode_of mode) first others.now }
{
    match mode {
        Mode::Outside => lexeme_at(text, first, others),
        Mode::AtKeyword => lexeme_at(text, first, others),
        Mode::Within(_) => lexeme_at(text, first, others),
        Mode::InComment => remark(text, first, others),
    }
}

// The mode after an optional piece.
fn mode_after(mode: Mode, piece: Option<Piece<'_>>) -> Mode
    requires { depth_of mode < usize.MAX }
    ensures { mode_of result ≡ lexing.mode_behind (mode_of mode) (maybe_of piece.entry) }
{
    match piece {
        Some(piece) => mode_behind(mode, piece),
        None => mode,
    }
}

/// The lexer: the remaining text, its position, and the mode.
#[derive(Clone, Copy)]
pub(crate) struct Lexer<'a> {
    pub text: &'a [u8],
    pub at: usize,
    pub mode: Mode,
}

impl<'a> Lexer<'a> {
    /// The lexer at the beginning of a text.
    pub(crate) fn new(text: &'a [u8]) -> Lexer<'a>
        ensures text { result.text.now ≡ text.now }
        ensures at { result.at ≡ 0 }
        ensures mode { mode_of result.mode ≡ lexing.Outside }
    {
        Lexer {
            text,
            at: 0,
            mode: Mode::Outside,
        }
    }

    // Skips the lexeme that the text begins with.
    fn take(&mut self, first: u8, others: &'a [u8]) -> Lexeme<'a>
        requires text { self.old.text.now ≡ first ∷ others.now }
        requires bounded { self.old.at + length self.old.text.now < 2 ^ 63 }
        requires depth { depth_of self.old.mode ≤ self.old.at }
        ensures tokens { tokens_in self.old
            ≡ token_then self.old.at result.len (maybe_of result.piece) (tokens_in self.new) }
        ensures at { self.new.at ≡ self.old.at + result.len }
        ensures whole { self.new.at + length self.new.text.now ≡ self.old.at + length self.old.text.now }
        ensures shorter { length self.new.text.now < length self.old.text.now }
        ensures depth { depth_of self.new.mode ≤ self.new.at }
    {
        let lexeme = lexeme_in(self.mode, self.text, first, others);
        self.mode = mode_after(self.mode, lexeme.piece);
        self.at += lexeme.len;
        self.text = &self.text[lexeme.len..];
        lexeme
    }

    /// The next token.
    pub(crate) fn next(&mut self) -> Option<Token<'a>>
        requires bounded { self.old.at + length self.old.text.now < 2 ^ 63 }
        requires depth { depth_of self.old.mode ≤ self.old.at }
        ensures tokens { tokens_in self.old ≡ listed result (tokens_in self.new) }
        ensures whole { self.new.at + length self.new.text.now ≡ self.old.at + length self.old.text.now }
        ensures depth { depth_of self.new.mode ≤ self.new.at }
    {
        while let Some((first, others)) = self.text.split_first() {
            let at = self.at;
            let lexeme = self.take(*first, others);
            if let Some(piece) = lexeme.piece {
                return Some(Token {
                    piece,
                    at,
                    end: self.at,
                });
            }
        }
        None
    }
}
