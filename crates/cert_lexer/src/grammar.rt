//! The grammar of proof files, over their pieces.

use class::{
    BLANK, CITE, CLOSE, CLOSE_BRACE, CLOSE_SQUARE, COST, CYCLE, DEN, DOT, EMPTY, END, FLOOR, FORMS,
    GAP, IN_BOUND, KEPT, KOAT, LEMMA, LIN, LINE_FEED, LOW, MINUS, MORE, MOVES, NEVER, ONE, OPEN,
    OPEN_BRACE, OPEN_SQUARE, OTHER, PLACE, POLY, RANK, SEMICOLON, SET, SHUT, SPREAD, START, TO,
    TWO, UNREACHED, UP, USES, WEAKEN, ZERO,
};
use made::{
    ARM, BEHIND_NUMBER, BOUND, BY, FORM, FORM_LIST, GAP_PARTS, GAPS, INTEGER, INTEGERS, LEMMAS,
    LIST_NUMBER, MEMBER, MEMBERS, MORE_FORMS, MORE_INTEGERS, MORE_MOVES, MORE_NUMBERS, MORE_PLACES,
    MORE_POINTS, MORE_RULES, MORE_USED, MOVE_LIST, NAME, NUMBER, NUMBERS, PARTS, PLAIN, POINT,
    POINTS, POSITIVE, PROOF, RESTS, RULE, RULES, SET_RULE, SOME_NUMBERS, SOME_PLACES, SOME_RULES,
    USED, VERSION,
};
use text_grammar::Item::{self, AMade, AMark, APiece, End, Or};

/// The number of classes of pieces.
pub const CLASSES: u32 = 46;
/// The number of rounds after which the entries of the table no longer change.
pub const ROUNDS: u32 = 5;

// The classes of pieces: the first word, the other words, other names, numbers, blanks and line feeds, brackets and
// separators, places of symbols, the pieces of bounds, and, last, bytes that are no piece of a proof file.
#[rattlefmt::skip]
pub mod class {
    pub const KOAT: u32 = 0; pub const LEMMA: u32 = 1; pub const GAP: u32 = 2; pub const END: u32 = 3;
    pub const CITE: u32 = 4; pub const START: u32 = 5; pub const EMPTY: u32 = 6; pub const UNREACHED: u32 = 7;
    pub const NEVER: u32 = 8; pub const RANK: u32 = 9; pub const SPREAD: u32 = 10; pub const CYCLE: u32 = 11;
    pub const WEAKEN: u32 = 12; pub const COST: u32 = 13; pub const USES: u32 = 14; pub const SET: u32 = 15;
    pub const DEN: u32 = 16; pub const FORMS: u32 = 17; pub const MOVES: u32 = 18; pub const FLOOR: u32 = 19;
    pub const UP: u32 = 20; pub const LOW: u32 = 21; pub const POLY: u32 = 22; pub const LIN: u32 = 23;
    pub const TO: u32 = 24; pub const SHUT: u32 = 25; pub const KEPT: u32 = 26; pub const OTHER: u32 = 27;
    pub const ZERO: u32 = 28; pub const ONE: u32 = 29; pub const TWO: u32 = 30; pub const MORE: u32 = 31;
    pub const BLANK: u32 = 32; pub const LINE_FEED: u32 = 33; pub const OPEN_SQUARE: u32 = 34;
    pub const CLOSE_SQUARE: u32 = 35; pub const OPEN_BRACE: u32 = 36; pub const CLOSE_BRACE: u32 = 37;
    pub const OPEN: u32 = 38; pub const CLOSE: u32 = 39; pub const SEMICOLON: u32 = 40;
    pub const DOT: u32 = 41; pub const MINUS: u32 = 42; pub const PLACE: u32 = 43;
    pub const IN_BOUND: u32 = 44; pub const WRONG: u32 = 45;
}

// The nonterminals.
#[rattlefmt::skip]
mod made {
    pub const VERSION: u32 = 1; pub const LEMMAS: u32 = 2; pub const GAPS: u32 = 3; pub const PROOF: u32 = 4;
    pub const RESTS: u32 = 5; pub const USED: u32 = 6; pub const MORE_USED: u32 = 7;
    pub const NUMBER: u32 = 8; pub const RULE: u32 = 9; pub const PLAIN: u32 = 10; pub const RULES: u32 = 11;
    pub const SOME_RULES: u32 = 12; pub const SET_RULE: u32 = 13; pub const MORE_RULES: u32 = 14;
    pub const NUMBERS: u32 = 15; pub const SOME_NUMBERS: u32 = 16; pub const LIST_NUMBER: u32 = 17;
    pub const MORE_NUMBERS: u32 = 18; pub const INTEGER: u32 = 19; pub const POSITIVE: u32 = 20;
    pub const INTEGERS: u32 = 21; pub const MORE_INTEGERS: u32 = 22; pub const FORM_LIST: u32 = 23;
    pub const FORM: u32 = 24; pub const MORE_FORMS: u32 = 25; pub const MOVE_LIST: u32 = 26;
    pub const MORE_MOVES: u32 = 27; pub const MEMBER: u32 = 28; pub const MEMBERS: u32 = 29;
    pub const ARM: u32 = 30; pub const BY: u32 = 31; pub const GAP_PARTS: u32 = 32;
    pub const SOME_PLACES: u32 = 33; pub const MORE_PLACES: u32 = 34; pub const POINTS: u32 = 35;
    pub const MORE_POINTS: u32 = 36; pub const POINT: u32 = 37; pub const PARTS: u32 = 38;
    pub const BEHIND_NUMBER: u32 = 39; pub const BOUND: u32 = 40; pub const NAME: u32 = 41;
}

// The marks: positions of the actions in `ACTIONS`.
#[rattlefmt::skip]
mod mark {
    pub const FIRST_VERSION: u32 = 0; pub const SECOND_VERSION: u32 = 1; pub const LEMMA_READ: u32 = 2;
    pub const GAP_READ: u32 = 3; pub const NODE_BEGINS: u32 = 4; pub const LEMMA_COMES: u32 = 5;
    pub const CITE_READ: u32 = 6; pub const START_READ: u32 = 7; pub const EMPTY_READ: u32 = 8;
    pub const UNREACHED_READ: u32 = 9; pub const NEVER_READ: u32 = 10; pub const RANK_READ: u32 = 11;
    pub const SPREAD_READ: u32 = 12; pub const CYCLE_READ: u32 = 13; pub const WEAKEN_READ: u32 = 14;
    pub const COST_READ: u32 = 15; pub const USES_BEGIN: u32 = 16; pub const USED_READ: u32 = 17;
    pub const USES_READ: u32 = 18; pub const RULE_COMES: u32 = 19; pub const RULE_READ: u32 = 20;
    pub const RULE_LISTED: u32 = 21; pub const NUMBER_COMES: u32 = 22; pub const NUMBER_READ: u32 = 23;
    pub const LIST_BEGINS: u32 = 24; pub const LISTED: u32 = 25; pub const INTEGER_COMES: u32 = 26;
    pub const INTEGER_READ: u32 = 27; pub const NAME_COMES: u32 = 28; pub const FORM_READ: u32 = 29;
    pub const MOVE_READ: u32 = 30; pub const PLACE_COMES: u32 = 31; pub const SPOT_READ: u32 = 32;
    pub const UP_READ: u32 = 33; pub const LOW_READ: u32 = 34; pub const POLY_READ: u32 = 35;
    pub const ARM_FORM_READ: u32 = 36; pub const ARM_READ: u32 = 37; pub const BY_EMPTY_READ: u32 = 38;
    pub const BY_NEVER_READ: u32 = 39; pub const BY_ARM_READ: u32 = 40; pub const GAP_BEGINS: u32 = 41;
    pub const GAP_MOVES_READ: u32 = 42; pub const GAP_FLOOR_READ: u32 = 43; pub const POINT_READ: u32 = 44;
}

/// The rules, in the order of the nonterminals, the text first.
#[rattlefmt::skip]
pub const PROOF_GRAMMAR: [Item; 436] = [
    // text
    APiece(KOAT), APiece(BLANK), AMade(VERSION), APiece(LINE_FEED), AMade(LEMMAS), End,
    // version
    APiece(ONE), AMark(mark::FIRST_VERSION), Or, APiece(TWO), AMark(mark::SECOND_VERSION), End,
    // lemmas
    APiece(LEMMA), APiece(BLANK), AMade(PROOF), APiece(LINE_FEED), AMark(mark::LEMMA_READ), AMade(LEMMAS), Or,
    AMade(GAPS), End,
    // gaps
    APiece(GAP), APiece(BLANK), AMade(GAP_PARTS), APiece(LINE_FEED), AMark(mark::GAP_READ), AMade(GAPS), Or,
    APiece(END), APiece(LINE_FEED), End,
    // proof
    AMark(mark::NODE_BEGINS), APiece(CITE), APiece(BLANK), AMark(mark::LEMMA_COMES), AMade(NUMBER),
    AMark(mark::CITE_READ), Or, AMark(mark::NODE_BEGINS), APiece(START), AMark(mark::START_READ), Or,
    AMark(mark::NODE_BEGINS), APiece(EMPTY), APiece(BLANK), AMade(RULE), APiece(BLANK), AMade(NUMBERS),
    AMark(mark::EMPTY_READ), Or, AMark(mark::NODE_BEGINS), APiece(UNREACHED), APiece(BLANK), AMade(RULE),
    AMade(RESTS), AMark(mark::UNREACHED_READ), Or, AMark(mark::NODE_BEGINS), APiece(NEVER), APiece(BLANK),
    APiece(OPEN), AMade(PROOF), APiece(CLOSE), AMark(mark::NEVER_READ), Or, AMark(mark::NODE_BEGINS), APiece(RANK),
    APiece(BLANK), AMade(RULE), APiece(BLANK), APiece(SET), APiece(BLANK), AMade(RULES), APiece(BLANK), APiece(DEN),
    APiece(BLANK), AMade(PLAIN), APiece(BLANK), APiece(FORMS), APiece(BLANK), AMade(FORM_LIST), APiece(BLANK),
    APiece(MOVES), APiece(BLANK), AMade(MOVE_LIST), APiece(BLANK), APiece(FLOOR), APiece(BLANK), AMade(NUMBERS),
    AMade(RESTS), AMark(mark::RANK_READ), Or, AMark(mark::NODE_BEGINS), APiece(SPREAD), APiece(BLANK), AMade(MEMBER),
    AMade(RESTS), AMark(mark::SPREAD_READ), Or, AMark(mark::NODE_BEGINS), APiece(CYCLE), APiece(BLANK),
    APiece(OPEN_SQUARE), AMade(MEMBER), AMade(MEMBERS), AMade(RESTS), AMark(mark::CYCLE_READ), Or,
    AMark(mark::NODE_BEGINS), APiece(WEAKEN), APiece(BLANK), APiece(OPEN), AMade(PROOF), APiece(CLOSE), APiece(BLANK),
    APiece(TO), APiece(BLANK), APiece(IN_BOUND), AMade(BOUND), AMark(mark::WEAKEN_READ), Or, AMark(mark::NODE_BEGINS),
    APiece(COST), APiece(BLANK), AMade(RULE), APiece(BLANK), AMade(BY), AMade(RESTS), AMark(mark::COST_READ), End,
    // premises
    APiece(BLANK), APiece(USES), APiece(BLANK), APiece(OPEN_BRACE), AMark(mark::USES_BEGIN), AMade(USED),
    AMark(mark::USES_READ), End,
    // the premises in braces
    APiece(CLOSE_BRACE), Or, AMade(PROOF), AMark(mark::USED_READ), AMade(MORE_USED), End,
    // further premises
    APiece(CLOSE_BRACE), Or, APiece(SEMICOLON), APiece(BLANK), AMade(PROOF), AMark(mark::USED_READ), AMade(MORE_USED),
    End,
    // any number
    APiece(ZERO), Or, APiece(ONE), Or, APiece(TWO), Or, APiece(MORE), End,
    // number of a rule
    AMark(mark::RULE_COMES), AMade(NUMBER), AMark(mark::RULE_READ), End,
    // denominator
    AMark(mark::NUMBER_COMES), AMade(NUMBER), AMark(mark::NUMBER_READ), End,
    // set of rules
    APiece(OPEN_SQUARE), AMade(SOME_RULES), End,
    // some rules
    APiece(CLOSE_SQUARE), Or, AMade(SET_RULE), AMade(MORE_RULES), End,
    // number of a rule in a set
    AMark(mark::RULE_COMES), AMade(NUMBER), AMark(mark::RULE_LISTED), End,
    // more rules
    APiece(CLOSE_SQUARE), Or, APiece(BLANK), AMade(SET_RULE), AMade(MORE_RULES), End,
    // list of natural numbers
    APiece(OPEN_SQUARE), AMark(mark::LIST_BEGINS), AMade(SOME_NUMBERS), End,
    // some numbers
    APiece(CLOSE_SQUARE), Or, AMade(LIST_NUMBER), AMade(MORE_NUMBERS), End,
    // natural number in a list
    AMark(mark::NUMBER_COMES), AMade(NUMBER), AMark(mark::LISTED), End,
    // more numbers
    APiece(CLOSE_SQUARE), Or, APiece(BLANK), AMade(LIST_NUMBER), AMade(MORE_NUMBERS), End,
    // number that may have a sign
    AMark(mark::INTEGER_COMES), AMade(NUMBER), AMark(mark::INTEGER_READ), Or, AMark(mark::INTEGER_COMES),
    APiece(MINUS), AMade(POSITIVE), AMark(mark::INTEGER_READ), End,
    // number from 1 on
    APiece(ONE), Or, APiece(TWO), Or, APiece(MORE), End,
    // list of coefficients and a constant
    APiece(OPEN_SQUARE), AMark(mark::LIST_BEGINS), AMade(INTEGER), AMade(MORE_INTEGERS), End,
    // more integers
    APiece(CLOSE_SQUARE), Or, APiece(BLANK), AMade(INTEGER), AMade(MORE_INTEGERS), End,
    // forms
    APiece(OPEN_SQUARE), AMade(FORM), AMade(MORE_FORMS), End,
    // form
    AMark(mark::NAME_COMES), AMade(NAME), APiece(BLANK), AMade(INTEGERS), AMark(mark::FORM_READ), End,
    // more forms
    APiece(CLOSE_SQUARE), Or, APiece(SEMICOLON), APiece(BLANK), AMade(FORM), AMade(MORE_FORMS), End,
    // lists of multipliers
    APiece(OPEN_SQUARE), AMade(NUMBERS), AMark(mark::MOVE_READ), AMade(MORE_MOVES), End,
    // more moves
    APiece(CLOSE_SQUARE), Or, APiece(SEMICOLON), APiece(BLANK), AMade(NUMBERS), AMark(mark::MOVE_READ),
    AMade(MORE_MOVES), End,
    // place with its local bound
    AMade(RULE), APiece(DOT), AMark(mark::PLACE_COMES), AMade(NUMBER), AMark(mark::SPOT_READ), APiece(BLANK),
    APiece(UP), APiece(BLANK), AMade(ARM), AMark(mark::UP_READ), APiece(BLANK), APiece(LOW), APiece(BLANK),
    AMade(ARM), AMark(mark::LOW_READ), End,
    // further places with their local bounds
    APiece(CLOSE_SQUARE), Or, APiece(SEMICOLON), APiece(BLANK), AMade(MEMBER), AMade(MEMBERS), End,
    // side bound
    APiece(POLY), AMark(mark::POLY_READ), Or, APiece(LIN), APiece(BLANK), AMade(PLAIN), APiece(BLANK),
    AMade(INTEGERS), AMark(mark::ARM_FORM_READ), APiece(BLANK), AMade(NUMBERS), AMark(mark::ARM_READ), End,
    // how a cost is shown
    APiece(EMPTY), APiece(BLANK), AMade(NUMBERS), AMark(mark::BY_EMPTY_READ), Or, APiece(NEVER),
    AMark(mark::BY_NEVER_READ), Or, AMade(ARM), AMark(mark::BY_ARM_READ), End,
    // gap parts
    AMark(mark::GAP_BEGINS), AMade(RULE), APiece(BLANK), APiece(SET), APiece(BLANK), AMade(RULES), APiece(BLANK),
    APiece(SHUT), APiece(BLANK), APiece(OPEN_SQUARE), AMade(SOME_PLACES), APiece(BLANK), APiece(MOVES), APiece(BLANK),
    AMade(POINTS), AMark(mark::GAP_MOVES_READ), APiece(BLANK), APiece(FLOOR), APiece(BLANK), AMade(POINT),
    AMark(mark::GAP_FLOOR_READ), APiece(BLANK), APiece(KEPT), APiece(BLANK), AMade(POINTS), End,
    // some places
    APiece(CLOSE_SQUARE), Or, APiece(PLACE), AMade(MORE_PLACES), End,
    // more places
    APiece(CLOSE_SQUARE), Or, APiece(BLANK), APiece(PLACE), AMade(MORE_PLACES), End,
    // scaled points
    APiece(OPEN_SQUARE), AMade(POINT), AMade(MORE_POINTS), End,
    // more points
    APiece(CLOSE_SQUARE), Or, APiece(SEMICOLON), APiece(BLANK), AMade(POINT), AMade(MORE_POINTS), End,
    // point
    APiece(OPEN_SQUARE), AMark(mark::LIST_BEGINS), AMade(PARTS), AMark(mark::POINT_READ), End,
    // parts of a point, and its denominator
    AMark(mark::INTEGER_COMES), AMade(NUMBER), AMark(mark::INTEGER_READ), AMade(BEHIND_NUMBER), Or,
    AMark(mark::INTEGER_COMES), APiece(MINUS), AMade(POSITIVE), AMark(mark::INTEGER_READ), APiece(BLANK),
    AMade(PARTS), End,
    // the end of a point, or its further parts
    APiece(CLOSE_SQUARE), Or, APiece(BLANK), AMade(PARTS), End,
    // bound
    APiece(IN_BOUND), AMade(BOUND), Or, End,
    // name
    APiece(LEMMA), Or, APiece(GAP), Or, APiece(END), Or, APiece(CITE), Or, APiece(START), Or, APiece(EMPTY), Or,
    APiece(UNREACHED), Or, APiece(NEVER), Or, APiece(RANK), Or, APiece(SPREAD), Or, APiece(CYCLE), Or, APiece(WEAKEN),
    Or, APiece(COST), Or, APiece(USES), Or, APiece(SET), Or, APiece(DEN), Or, APiece(FORMS), Or, APiece(MOVES), Or,
    APiece(FLOOR), Or, APiece(UP), Or, APiece(LOW), Or, APiece(POLY), Or, APiece(LIN), Or, APiece(TO), Or,
    APiece(SHUT), Or, APiece(KEPT), Or, APiece(OTHER), End,
];
