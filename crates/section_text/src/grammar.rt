//! The grammar of sections, over their pieces.

use class::{
    BLANK, BY, CLOSE, CLOSE_SQUARE, COPY, ELSE, FACTS, FROM, IF, LINE_FEED, MINUS, NAME, NEVER, OF,
    OPEN, OPEN_SQUARE, POSITIVE, RULE, SEMICOLON, THEN, TO, ZERO,
};
use mark::{
    BRANCH_READ, BRANCH_WORD, CASE_WORD, COPY_READ, COPY_WORD, FACT_READ, INTEGER, LIST_READ,
    MULTIPLIER, NEVER_READ, NEW_NAME, NO_READ, RULE_NUMBER, SOURCE, SYMBOL, TARGET, TEST_READ,
    TO_READ, YES_READ,
};
use text_grammar::Item::{self, AMade, AMark, APiece, End, Or};

/// The classes of pieces. Bytes that are no piece of any section have the class after these.
#[rattlefmt::skip]
pub mod class {
    pub const COPY: u32 = 0; pub const OF: u32 = 1; pub const FACTS: u32 = 2; pub const FROM: u32 = 3;
    pub const RULE: u32 = 4; pub const TO: u32 = 5; pub const BY: u32 = 6; pub const NEVER: u32 = 7;
    pub const IF: u32 = 8; pub const THEN: u32 = 9; pub const ELSE: u32 = 10; pub const NAME: u32 = 11;
    pub const ZERO: u32 = 12; pub const POSITIVE: u32 = 13; pub const BLANK: u32 = 14; pub const LINE_FEED: u32 = 15;
    pub const OPEN_SQUARE: u32 = 16; pub const CLOSE_SQUARE: u32 = 17; pub const OPEN: u32 = 18;
    pub const CLOSE: u32 = 19; pub const SEMICOLON: u32 = 20; pub const MINUS: u32 = 21;
}

// The marks, in the order of their actions.
#[rattlefmt::skip]
mod mark {
    pub const COPY_WORD: u32 = 0; pub const NEW_NAME: u32 = 1; pub const SYMBOL: u32 = 2;
    pub const BRANCH_WORD: u32 = 3; pub const SOURCE: u32 = 4; pub const RULE_NUMBER: u32 = 5;
    pub const CASE_WORD: u32 = 6; pub const TARGET: u32 = 7; pub const INTEGER: u32 = 8;
    pub const MULTIPLIER: u32 = 9; pub const FACT_READ: u32 = 10; pub const COPY_READ: u32 = 11;
    pub const LIST_READ: u32 = 12; pub const TO_READ: u32 = 13; pub const NEVER_READ: u32 = 14;
    pub const TEST_READ: u32 = 15; pub const YES_READ: u32 = 16; pub const NO_READ: u32 = 17;
    pub const BRANCH_READ: u32 = 18;
}

/// The number of classes of pieces.
pub const CLASSES: u32 = 23;
/// The number of rounds after which no entry of the table changes.
pub const ROUNDS: u32 = 6;

// The nonterminals, in the order of their rules.
const COPIES: u32 = 1;

const BRANCHES: u32 = 2;

const COPY_LINE: u32 = 3;

const BRANCH_LINE: u32 = 4;

const A_NAME: u32 = 5;

const NATURAL: u32 = 6;

const FORMS: u32 = 7;

const MORE_FORMS: u32 = 8;

const FORM: u32 = 9;

const SIGNED: u32 = 10;

const MORE_SIGNED: u32 = 11;

const CASES: u32 = 12;

const LISTS: u32 = 13;

const MORE_LISTS: u32 = 14;

const NUMBERS: u32 = 15;

const REST: u32 = 16;

const MORE_NUMBERS: u32 = 17;

/// The rules.
#[rattlefmt::skip]
pub const SECTION_GRAMMAR: [Item; 174] = [
    // the text, the lines of copies, the lines of branches
    AMade(COPY_LINE), AMade(COPIES), AMade(BRANCHES), End,
    AMade(COPY_LINE), AMade(COPIES), Or, End,
    AMade(BRANCH_LINE), AMade(BRANCHES), Or, End,
    // the line of a copy
    AMark(COPY_WORD), APiece(COPY), APiece(BLANK), AMark(NEW_NAME), AMade(A_NAME), APiece(BLANK), APiece(OF),
    APiece(BLANK), AMark(SYMBOL), AMade(A_NAME), APiece(BLANK), APiece(FACTS), APiece(BLANK), APiece(OPEN_SQUARE),
    AMade(FORMS), AMark(COPY_READ), APiece(LINE_FEED), End,
    // the line of a branch
    AMark(BRANCH_WORD), APiece(FROM), APiece(BLANK), AMark(SOURCE), AMade(A_NAME), APiece(BLANK), APiece(RULE),
    APiece(BLANK), AMark(RULE_NUMBER), AMade(NATURAL), APiece(BLANK), AMade(CASES), AMark(BRANCH_READ),
    APiece(LINE_FEED), End,
    // names, natural numbers
    APiece(COPY), Or, APiece(OF), Or, APiece(FACTS), Or, APiece(FROM), Or, APiece(RULE), Or, APiece(TO), Or,
    APiece(BY), Or, APiece(NEVER), Or, APiece(IF), Or, APiece(THEN), Or, APiece(ELSE), Or, APiece(NAME), End,
    APiece(ZERO), Or, APiece(POSITIVE), End,
    // forms after `[`, further forms, a form, a number with its sign, further numbers
    APiece(CLOSE_SQUARE), Or, AMade(FORM), AMark(FACT_READ), AMade(MORE_FORMS), End,
    APiece(CLOSE_SQUARE), Or,
    APiece(SEMICOLON), APiece(BLANK), AMade(FORM), AMark(FACT_READ), AMade(MORE_FORMS), End,
    APiece(OPEN_SQUARE), AMark(INTEGER), AMade(SIGNED), AMade(MORE_SIGNED), End,
    APiece(ZERO), Or, APiece(POSITIVE), Or, APiece(MINUS), APiece(POSITIVE), End,
    APiece(CLOSE_SQUARE), Or, APiece(BLANK), AMark(INTEGER), AMade(SIGNED), AMade(MORE_SIGNED), End,
    // cases
    AMark(CASE_WORD), APiece(TO), APiece(BLANK), AMark(TARGET), AMade(A_NAME), APiece(BLANK), APiece(BY),
    APiece(BLANK), APiece(OPEN_SQUARE), AMade(LISTS), AMark(TO_READ), Or,
    AMark(CASE_WORD), APiece(NEVER), APiece(BLANK), AMade(NUMBERS), AMark(NEVER_READ), Or,
    AMark(CASE_WORD), APiece(IF), APiece(BLANK), AMade(FORM), AMark(TEST_READ), APiece(BLANK), APiece(THEN),
    APiece(BLANK), APiece(OPEN), AMade(CASES), AMark(YES_READ), APiece(CLOSE), APiece(BLANK), APiece(ELSE),
    APiece(BLANK), APiece(OPEN), AMade(CASES), APiece(CLOSE), AMark(NO_READ), End,
    // lists of multipliers after `[`, further lists, multipliers, multipliers after `[`, further multipliers
    APiece(CLOSE_SQUARE), Or, AMade(NUMBERS), AMark(LIST_READ), AMade(MORE_LISTS), End,
    APiece(CLOSE_SQUARE), Or,
    APiece(SEMICOLON), APiece(BLANK), AMade(NUMBERS), AMark(LIST_READ), AMade(MORE_LISTS), End,
    APiece(OPEN_SQUARE), AMade(REST), End,
    APiece(CLOSE_SQUARE), Or, AMark(MULTIPLIER), AMade(NATURAL), AMade(MORE_NUMBERS), End,
    APiece(CLOSE_SQUARE), Or, APiece(BLANK), AMark(MULTIPLIER), AMade(NATURAL), AMade(MORE_NUMBERS), End,
];
