//! The grammar of run files, over single bytes.

use class::{A, D, E, K, N, O, P, R, S, T, U};
use text_grammar::Item::{self, AMade, AMark, APiece, End, Or};
use text_grammar::{
    BLANK, DIGITS, LINE, LINE_BEGINS, LINE_FEED, LINE_READ, MINUS, MORE, NATURAL, NATURAL_BEGINS,
    NATURAL_READ, NUMBER, ONE, POSITIVE, SIGNED_BEGINS, SIGNED_READ, VALUE, VALUE_BEGINS,
    VALUE_READ, VALUES, ZERO,
};

/// The letters of the words of run files. Each is a class of its own, numbered after those of the digits, `-`, a blank
/// and a line feed.
#[rattlefmt::skip]
pub const LETTERS: [u8; 11] = [b's', b't', b'e', b'p', b'a', b'd', b'k', b'n', b'o', b'r', b'u'];

// The classes of the letters.
#[rattlefmt::skip]
mod class {
    pub const S: u32 = 6; pub const T: u32 = 7; pub const E: u32 = 8; pub const P: u32 = 9;
    pub const A: u32 = 10; pub const D: u32 = 11; pub const K: u32 = 12; pub const N: u32 = 13;
    pub const O: u32 = 14; pub const R: u32 = 15; pub const U: u32 = 16;
}

/// The number of classes of bytes.
pub const CLASSES: u32 = 18;
/// The number of rounds after which no entry of the table changes.
pub const ROUNDS: u32 = 9;

const STEPS: u32 = 9;

/// The rules: one for texts; those for numbers, for lines of values and for signed numbers, which don't occur by
/// themselves in a run file; and one for steps.
#[rattlefmt::skip]
pub const RUN_GRAMMAR: [Item; 85] = [
    // text
    APiece(K), APiece(O), APiece(A), APiece(T), APiece(MINUS), APiece(R), APiece(U), APiece(N), APiece(BLANK),
    APiece(ONE), APiece(LINE_FEED), APiece(S), APiece(T), APiece(A), APiece(R), APiece(T), AMade(LINE), AMade(STEPS),
    End,
    // value, natural, number, positive, digits
    AMark(VALUE_BEGINS), APiece(MINUS), AMade(POSITIVE), AMark(VALUE_READ), Or,
    AMark(VALUE_BEGINS), AMade(NUMBER), AMark(VALUE_READ), End,
    AMark(NATURAL_BEGINS), AMade(NUMBER), AMark(NATURAL_READ), End,
    APiece(ZERO), Or, AMade(POSITIVE), End,
    APiece(ONE), AMade(DIGITS), Or, APiece(MORE), AMade(DIGITS), End,
    APiece(ZERO), AMade(DIGITS), Or, APiece(ONE), AMade(DIGITS), Or, APiece(MORE), AMade(DIGITS), Or, End,
    // line, values
    AMark(LINE_BEGINS), AMade(VALUES), End,
    APiece(BLANK), AMade(VALUE), AMade(VALUES), Or, APiece(LINE_FEED), AMark(LINE_READ), End,
    // signed
    AMark(SIGNED_BEGINS), APiece(MINUS), AMade(POSITIVE), AMark(SIGNED_READ), Or,
    AMark(SIGNED_BEGINS), AMade(NUMBER), AMark(SIGNED_READ), End,
    // steps
    APiece(S), APiece(T), APiece(E), APiece(P), APiece(BLANK), AMade(NATURAL), AMade(LINE), AMade(STEPS), Or,
    APiece(E), APiece(N), APiece(D), APiece(LINE_FEED), End,
];
