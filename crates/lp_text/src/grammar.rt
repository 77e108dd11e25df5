//! The grammar of texts of linear programs, over single bytes.

use class::{A, C, D, E, EQUALS, F, I, K, L, N, O, P, R, S, T, W};
use text_grammar::Item::{self, AMade, AMark, APiece, End, Or};
use text_grammar::{
    BLANK, DIGITS, LINE_BEGINS, LINE_FEED, LINE_READ, MINUS, MORE, NATURAL, NATURAL_BEGINS,
    NATURAL_READ, NUMBER, ONE, POSITIVE, SIGNED, SIGNED_BEGINS, SIGNED_READ, VALUE, VALUE_BEGINS,
    VALUE_READ, VALUES, ZERO,
};

/// The letters of its words, and `=`. Each is a class of its own, after those of digits, `-`, a blank and a line feed.
#[rattlefmt::skip]
pub const LETTERS: [u8; 16] = [
    b'k', b'o', b'a', b't', b'l', b'p', b'c', b's', b'f', b'i', b'r', b'e', b'n', b'd', b'w', b'=',
];

// The classes of the letters.
#[rattlefmt::skip]
mod class {
    pub const K: u32 = 6; pub const O: u32 = 7; pub const A: u32 = 8; pub const T: u32 = 9;
    pub const L: u32 = 10; pub const P: u32 = 11; pub const C: u32 = 12; pub const S: u32 = 13;
    pub const F: u32 = 14; pub const I: u32 = 15; pub const R: u32 = 16; pub const E: u32 = 17;
    pub const N: u32 = 18; pub const D: u32 = 19; pub const W: u32 = 20; pub const EQUALS: u32 = 21;
}

/// The number of classes of bytes.
pub const CLASSES: u32 = 23;
/// The number of rounds after which no entry of the table changes.
pub const ROUNDS: u32 = 9;

/// The marks before the first costs, before the second costs, after them, and before a right side.
pub const FIRST_BEGINS: u32 = 8;
/// See `FIRST_BEGINS`.
pub const SECOND_BEGINS: u32 = 9;
/// See `FIRST_BEGINS`.
pub const ROWS_BEGIN: u32 = 10;
/// See `FIRST_BEGINS`.
pub const RIGHT_BEGINS: u32 = 11;

const COSTS: u32 = 9;

const ROWS: u32 = 10;

const ITEMS: u32 = 11;

const ITEM: u32 = 12;

/// The rules: of the text; of numbers and of lines of values, of which this grammar uses only numbers; of costs; of
/// rows; and of the rest of a row, with the blank before it and without it.
#[rattlefmt::skip]
pub const LP_GRAMMAR: [Item; 116] = [
    // The rule of the text.
    APiece(K), APiece(O), APiece(A), APiece(T), APiece(MINUS), APiece(L), APiece(P), APiece(BLANK), APiece(ONE),
    APiece(LINE_FEED), APiece(C), APiece(O), APiece(L), APiece(S), APiece(BLANK), AMade(SIGNED), APiece(LINE_FEED),
    APiece(F), APiece(I), APiece(R), APiece(S), APiece(T), AMark(FIRST_BEGINS), AMade(COSTS),
    APiece(S), APiece(E), APiece(C), APiece(O), APiece(N), APiece(D), AMark(SECOND_BEGINS), AMade(COSTS),
    AMark(ROWS_BEGIN), AMade(ROWS), End,
    // The rules of values, natural numbers, numbers, positive numbers and digits.
    AMark(VALUE_BEGINS), APiece(MINUS), AMade(POSITIVE), AMark(VALUE_READ), Or,
    AMark(VALUE_BEGINS), AMade(NUMBER), AMark(VALUE_READ), End,
    AMark(NATURAL_BEGINS), AMade(NUMBER), AMark(NATURAL_READ), End,
    APiece(ZERO), Or, AMade(POSITIVE), End,
    APiece(ONE), AMade(DIGITS), Or, APiece(MORE), AMade(DIGITS), End,
    APiece(ZERO), AMade(DIGITS), Or, APiece(ONE), AMade(DIGITS), Or, APiece(MORE), AMade(DIGITS), Or, End,
    // The rules of lines of values and of their rest.
    AMark(LINE_BEGINS), AMade(VALUES), End,
    APiece(BLANK), AMade(VALUE), AMade(VALUES), Or, APiece(LINE_FEED), AMark(LINE_READ), End,
    // The rule of signed numbers.
    AMark(SIGNED_BEGINS), APiece(MINUS), AMade(POSITIVE), AMark(SIGNED_READ), Or,
    AMark(SIGNED_BEGINS), AMade(NUMBER), AMark(SIGNED_READ), End,
    // The rule of costs.
    APiece(BLANK), AMade(NATURAL), AMade(COSTS), Or, APiece(LINE_FEED), End,
    // The rule of rows.
    APiece(R), APiece(O), APiece(W), AMade(ITEMS), AMade(ROWS), Or,
    APiece(E), APiece(N), APiece(D), APiece(LINE_FEED), End,
    // The rules of the rest of a row, with the blank before it and without it.
    APiece(BLANK), AMade(ITEM), End,
    APiece(EQUALS), APiece(BLANK), AMark(RIGHT_BEGINS), AMade(SIGNED), APiece(LINE_FEED), Or,
    AMade(SIGNED), AMade(ITEMS), End,
];
