//! The grammar of lasso files, over single bytes.

use class::{A, D, E, K, L, N, O, P, R, S, T};
use text_grammar::Item::{self, AMade, AMark, APiece, End, Or};
use text_grammar::{
    BLANK, DIGITS, LINE, LINE_BEGINS, LINE_FEED, LINE_READ, MINUS, MORE, NATURAL, NATURAL_BEGINS,
    NATURAL_READ, NUMBER, ONE, POSITIVE, SIGNED_BEGINS, SIGNED_READ, VALUE, VALUE_BEGINS,
    VALUE_READ, VALUES, ZERO,
};

/// The letters of its words; their classes come after those of digits, `-`, a blank and a line feed.
#[rattlefmt::skip]
pub const LETTERS: [u8; 11] = [b's', b't', b'e', b'p', b'a', b'd', b'k', b'n', b'o', b'r', b'l'];

// The classes of the letters.
#[rattlefmt::skip]
mod class {
    pub const S: u32 = 6; pub const T: u32 = 7; pub const E: u32 = 8; pub const P: u32 = 9;
    pub const A: u32 = 10; pub const D: u32 = 11; pub const K: u32 = 12; pub const N: u32 = 13;
    pub const O: u32 = 14; pub const R: u32 = 15; pub const L: u32 = 16;
}

/// The number of classes of bytes.
pub const CLASSES: u32 = 18;
/// The number of rounds after which no entry of the table changes.
pub const ROUNDS: u32 = 9;

const STEM: u32 = 9;

const TURN: u32 = 10;

const REST: u32 = 11;

/// The mark after the line `loop`.
const TURN_BEGINS: u32 = 8;

/// The rules: text, those of numbers, of lines of values and of signed numbers, of which a lasso file has none, the
/// stem, the turn, and what follows the turn's first step.
#[rattlefmt::skip]
pub const LASSO_GRAMMAR: [Item; 113] = [
    // text
    APiece(K), APiece(O), APiece(A), APiece(T), APiece(MINUS), APiece(L), APiece(A), APiece(S), APiece(S), APiece(O),
    APiece(BLANK), APiece(ONE), APiece(LINE_FEED), APiece(S), APiece(T), APiece(A), APiece(R), APiece(T), AMade(LINE),
    AMade(STEM), End,
    // value, natural, number, positive, digits
    AMark(VALUE_BEGINS), APiece(MINUS), AMade(POSITIVE), AMark(VALUE_READ), Or,
    AMark(VALUE_BEGINS), AMade(NUMBER), AMark(VALUE_READ), End,
    AMark(NATURAL_BEGINS), AMade(NUMBER), AMark(NATURAL_READ), End,
    APiece(ZERO), Or, AMade(POSITIVE), End,
    APiece(ONE), AMade(DIGITS), Or, APiece(MORE), AMade(DIGITS), End,
    APiece(ZERO), AMade(DIGITS), Or, APiece(ONE), AMade(DIGITS), Or, APiece(MORE), AMade(DIGITS), Or, End,
    // line, values
    AMark(LINE_BEGINS), AMade(VALUES), End,
    APiece(BLANK), AMade(VALUE), AMade(VALUES), Or, APiece(LINE_FEED), AMark(LINE_READ), End,
    // signed
    AMark(SIGNED_BEGINS), APiece(MINUS), AMade(POSITIVE), AMark(SIGNED_READ), Or,
    AMark(SIGNED_BEGINS), AMade(NUMBER), AMark(SIGNED_READ), End,
    // stem
    APiece(S), APiece(T), APiece(E), APiece(P), APiece(BLANK), AMade(NATURAL), AMade(LINE), AMade(STEM), Or,
    APiece(L), APiece(O), APiece(O), APiece(P), APiece(LINE_FEED), AMark(TURN_BEGINS), AMade(TURN), End,
    // turn
    APiece(S), APiece(T), APiece(E), APiece(P), APiece(BLANK), AMade(NATURAL), AMade(LINE), AMade(REST), End,
    // rest of the turn
    APiece(S), APiece(T), APiece(E), APiece(P), APiece(BLANK), AMade(NATURAL), AMade(LINE), AMade(REST), Or,
    APiece(E), APiece(N), APiece(D), APiece(LINE_FEED), End,
];
