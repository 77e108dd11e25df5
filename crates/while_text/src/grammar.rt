//! The grammar of while programs, over their tokens.

use class::{
    BECOMES, BLOCK_CLOSE, BLOCK_OPEN, CARET, CLOSE, COMMA, ELSE, IF, INPUT, JOINT, MINUS, NAME,
    NUMBER, OPEN, PLUS, QUESTION, RELATION, SEMICOLON, SKIP, TIMES, TRUTH, WHILE,
};
use text_grammar::Item::{self, AMade, APiece, End, Or};

/// The classes of tokens; a byte that begins no token has the class after these.
#[rattlefmt::skip]
pub mod class {
    pub const INPUT: u32 = 0; pub const SKIP: u32 = 1; pub const WHILE: u32 = 2; pub const IF: u32 = 3;
    pub const ELSE: u32 = 4; pub const TRUTH: u32 = 5; pub const NAME: u32 = 6; pub const NUMBER: u32 = 7;
    pub const BECOMES: u32 = 8; pub const QUESTION: u32 = 9; pub const SEMICOLON: u32 = 10;
    pub const COMMA: u32 = 11; pub const OPEN: u32 = 12; pub const CLOSE: u32 = 13;
    pub const BLOCK_OPEN: u32 = 14; pub const BLOCK_CLOSE: u32 = 15; pub const JOINT: u32 = 16;
    pub const RELATION: u32 = 17; pub const PLUS: u32 = 18; pub const MINUS: u32 = 19; pub const TIMES: u32 = 20;
    pub const CARET: u32 = 21;
}

/// The number of classes of tokens.
pub const CLASSES: u32 = 23;
/// The number of rounds after which no entry of the table changes.
pub const ROUNDS: u32 = 6;

// The nonterminals, in the order of their rules.
const MORE: u32 = 1;

const STATEMENTS: u32 = 2;

const STATEMENT: u32 = 3;

const VALUE: u32 = 4;

const OTHER: u32 = 5;

const BLOCK: u32 = 6;

const ATOMS: u32 = 7;

const MORE_ATOMS: u32 = 8;

const ATOM: u32 = 9;

const SUM: u32 = 10;

const MORE_PRODUCTS: u32 = 11;

const PRODUCT: u32 = 12;

const MORE_FACTORS: u32 = 13;

const FACTOR: u32 = 14;

const EXPONENT: u32 = 15;

const BASE: u32 = 16;

/// The rules. They have no marks: the effect of a token follows from the tokens before it.
#[rattlefmt::skip]
pub const WHILE_GRAMMAR: [Item; 101] = [
    // The rules of: text, more inputs.
    APiece(INPUT), APiece(NAME), AMade(MORE), AMade(STATEMENT), AMade(STATEMENTS), End,
    APiece(COMMA), APiece(NAME), AMade(MORE), Or, APiece(SEMICOLON), End,
    // The rules of: statements, statement.
    AMade(STATEMENT), AMade(STATEMENTS), Or, End,
    APiece(NAME), APiece(BECOMES), AMade(VALUE), APiece(SEMICOLON), Or,
    APiece(SKIP), APiece(SEMICOLON), Or,
    APiece(WHILE), APiece(OPEN), AMade(ATOMS), APiece(CLOSE), AMade(BLOCK), Or,
    APiece(IF), APiece(OPEN), AMade(ATOMS), APiece(CLOSE), AMade(BLOCK), AMade(OTHER), End,
    // The rules of: value, other branch, block.
    APiece(QUESTION), Or, AMade(SUM), End,
    APiece(ELSE), AMade(BLOCK), Or, End,
    APiece(BLOCK_OPEN), AMade(STATEMENTS), APiece(BLOCK_CLOSE), End,
    // The rules of: atoms, more atoms, atom.
    AMade(ATOM), AMade(MORE_ATOMS), End,
    APiece(JOINT), AMade(ATOM), AMade(MORE_ATOMS), Or, End,
    APiece(TRUTH), Or, AMade(SUM), APiece(RELATION), AMade(SUM), End,
    // The rules of: sum, more products, product, more factors, factor, exponent, base.
    AMade(PRODUCT), AMade(MORE_PRODUCTS), End,
    APiece(PLUS), AMade(PRODUCT), AMade(MORE_PRODUCTS), Or, APiece(MINUS), AMade(PRODUCT), AMade(MORE_PRODUCTS), Or, End,
    AMade(FACTOR), AMade(MORE_FACTORS), End,
    APiece(TIMES), AMade(FACTOR), AMade(MORE_FACTORS), Or, End,
    APiece(MINUS), AMade(FACTOR), Or, AMade(BASE), AMade(EXPONENT), End,
    APiece(CARET), APiece(NUMBER), Or, End,
    APiece(NUMBER), Or, APiece(NAME), Or, APiece(OPEN), AMade(SUM), APiece(CLOSE), End,
];
