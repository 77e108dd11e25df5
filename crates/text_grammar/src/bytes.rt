//! Texts whose pieces are single bytes, with decimal numbers in them.

ghost use Rattle.std.specs.Prelude.{◌≡◌, ◌<◌, ◌≤◌, ◌+◌, ◌-◌, ◌*◌, ◌^◌, length, IsTrue};
ghost use Rattle.std.specs.Char.{is_ascii_digit};
ghost use Rattle.text_grammar.specs.ByteTexts.{bytes_lexer, bytes_within, fresh, signed, with_byte};
ghost use Rattle.text_grammar.specs.ByteTexts.{with_sign as sign_put};
ghost use Rattle.text_grammar.specs.ByteTexts.{class_of as class_at, position_of as position_at};
ghost use Rattle.text_grammar.specs.CodeBytes.{numeral_of};

use crate::numeral::Numeral;
use crate::token_stream::{Lexeme, Lexer, OneMode};

/// The classes of `0`, of `1`, of `2` to `9`, of `-`, of a blank, and of a line feed.
pub const ZERO: u32 = 0;
/// See `ZERO`.
pub const ONE: u32 = 1;
/// See `ZERO`.
pub const MORE: u32 = 2;
/// See `ZERO`.
pub const MINUS: u32 = 3;
/// See `ZERO`.
pub const BLANK: u32 = 4;
/// See `ZERO`.
pub const LINE_FEED: u32 = 5;

/// The nonterminals: of a value with a sign; of a natural number; the three that spell a number; of a line of values;
/// of the rest of such a line after its beginning; and of a signed number that is passed to the text by itself. A text
/// is passed values only in lines: a value anywhere else is read and not passed on.
pub const VALUE: u32 = 1;
/// See `VALUE`.
pub const NATURAL: u32 = 2;
/// See `VALUE`.
pub const NUMBER: u32 = 3;
/// See `VALUE`.
pub const POSITIVE: u32 = 4;
/// See `VALUE`.
pub const DIGITS: u32 = 5;
/// See `VALUE`.
pub const LINE: u32 = 6;
/// See `VALUE`.
pub const VALUES: u32 = 7;
/// See `VALUE`.
pub const SIGNED: u32 = 8;

/// The marks before and after a value, a natural number, a line of values and a signed number.
pub const VALUE_BEGINS: u32 = 0;
/// See `VALUE_BEGINS`.
pub const VALUE_READ: u32 = 1;
/// See `VALUE_BEGINS`.
pub const NATURAL_READ: u32 = 2;
/// See `VALUE_BEGINS`.
pub const NATURAL_BEGINS: u32 = 3;
/// See `VALUE_BEGINS`.
pub const LINE_BEGINS: u32 = 4;
/// See `VALUE_BEGINS`.
pub const LINE_READ: u32 = 5;
/// See `VALUE_BEGINS`.
pub const SIGNED_BEGINS: u32 = 6;
/// See `VALUE_BEGINS`.
pub const SIGNED_READ: u32 = 7;

/// The greatest absolute value that a value may have, in any text.
pub const LINE_VALUE_LIMIT: u128 = (1 << 63) - 1;

const CAP: u128 = 1 << 64;

/// The lexer of texts in bytes. It has one mode.
#[derive(Drop)]
pub struct Bytes;

impl Lexer for Bytes {
    type Piece = u8;

    type Mode = OneMode;

    ghost lexer_of = { λ _. bytes_lexer };

    fn lexeme(&self, _mode: OneMode, _bytes: &[u8], first: u8, _others: &[u8]) -> Lexeme<u8> {
        Lexeme {
            piece: Some(first),
            len: 1,
        }
    }

    fn behind(&self, mode: OneMode, piece: Option<u8>) -> OneMode
        ensures { result ≡ bytes_lexer.mode_behind mode piece }
    {
        let _piece = piece;
        mode
    }

    ghost within = { λ _. bytes_within };
}

// The position of a byte in a list, or the list's length if it isn't in it.
fn position_of(letters: &[u8], byte: u8) -> u32
    requires { length letters.now < 2 ^ 31 }
    ensures position { result ≡ position_at letters.now byte }
    ensures within { result ≤ length letters.now }
{
    match letters {
        [first, ..] if *first == byte => 0,
        [_, others @ ..] => 1 + position_of(others, byte),
        [] => 0,
    }
}

/// The class of a byte, if words consist of these letters.
pub fn class_of(letters: &[u8], byte: u8) -> u32
    requires { length letters.now < 2 ^ 31 }
    ensures { result ≡ class_at letters.now byte }
{
    match byte {
        b'0' => ZERO,
        b'1' => ONE,
        b'2'..=b'9' => MORE,
        b'-' => MINUS,
        b' ' => BLANK,
        b'\n' => LINE_FEED,
        _ => 6 + position_of(letters, byte),
    }
}

/// A number with its sign.
pub fn with_sign(negative: bool, number: u128) -> i128
    requires { number < 2 ^ 127 }
    ensures { result ≡ sign_put negative number }
{
    if negative {
        -(number as i128)
    } else {
        number as i128
    }
}

impl Numeral {
    /// The state in which no byte of a number has been read.
    pub fn new() -> Numeral
        ensures { numeral_of result ≡ fresh }
    {
        Numeral {
            negative: false,
            number: 0,
            spelled: 0,
        }
    }

    /// The number with one more digit.
    pub fn more(&self, digit: u8) -> u128
        requires { IsTrue (is_ascii_digit digit) }
        ensures value { result ≡ self.now.number * 10 + (digit - 48) }
        ensures small { result < 2 ^ 127 }
    {
        self.number * 10 + u128::from(digit - b'0')
    }

    /// Reads a byte of the text.
    pub fn take(&mut self, byte: u8)
        ensures { numeral_of self.new ≡ with_byte byte (numeral_of self.old) }
    {
        if byte.is_ascii_digit() {
            self.number = self.more(byte).min(CAP);
            self.spelled = self.spelled.saturating_add(1);
        } else if byte == b'-' {
            self.negative = true;
            self.spelled = self.spelled.saturating_add(1);
        } else {
            *self = Numeral::new();
        }
    }

    /// The number with its sign.
    pub fn value(&self) -> i128
        ensures { result ≡ signed (numeral_of self.now) }
    {
        with_sign(self.negative, self.number)
    }

    /// The position of the number's first byte, if the next token is at this position.
    pub fn begins_at(&self, at: u64) -> u64
        ensures { result ≡ at - self.now.spelled }
    {
        at.saturating_sub(self.spelled)
    }
}
