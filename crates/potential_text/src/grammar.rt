//! The grammar of lines, over their pieces.

use sign::{
    BLANK, CLOSE, CLOSE_CURLY, CLOSE_SQUARE, DOT, LINE_FEED, MINUS, NAME, OPEN, OPEN_CURLY,
    OPEN_SQUARE, POSITIVE, SEMICOLON, STAR, ZERO,
};
use text_grammar::Item::{self, AMade, AMark, APiece, End, Or};

// The classes of words.
#[rattlefmt::skip]
mod word {
    pub const SIGNED: u32 = 0; pub const FALL: u32 = 1; pub const PEAK: u32 = 2; pub const ROW: u32 = 3;
    pub const ROWS: u32 = 4; pub const ZERO: u32 = 5; pub const TIMES: u32 = 6; pub const LEAST: u32 = 7;
    pub const ADD: u32 = 8; pub const AMONG: u32 = 9; pub const SIZED: u32 = 10; pub const PHASES: u32 = 11;
    pub const FUNCTIONS: u32 = 12; pub const DEN: u32 = 13; pub const MOVES: u32 = 14; pub const PAYS: u32 = 15;
    pub const COUNTS: u32 = 16; pub const KEEP: u32 = 17; pub const RESET: u32 = 18; pub const BY: u32 = 19;
    pub const MOST: u32 = 20; pub const TO: u32 = 21; pub const PART: u32 = 22; pub const SUM: u32 = 23;
    pub const PRODUCT: u32 = 24; pub const MAXIMUM: u32 = 25; pub const MINIMUM: u32 = 26;
    pub const QUOTIENT: u32 = 27; pub const ROOT: u32 = 28; pub const POWER: u32 = 29; pub const CLAIM: u32 = 30;
    pub const TIME: u32 = 31; pub const COST: u32 = 32; pub const TOTAL: u32 = 33; pub const ABOVE: u32 = 34;
    pub const BELOW: u32 = 35;
}

// The classes of other pieces; what is no piece of any line is of the class after these.
#[rattlefmt::skip]
mod sign {
    pub const NAME: u32 = 36; pub const ZERO: u32 = 37; pub const POSITIVE: u32 = 38; pub const BLANK: u32 = 39;
    pub const LINE_FEED: u32 = 40; pub const OPEN_SQUARE: u32 = 41; pub const CLOSE_SQUARE: u32 = 42;
    pub const OPEN_CURLY: u32 = 43; pub const CLOSE_CURLY: u32 = 44; pub const OPEN: u32 = 45;
    pub const CLOSE: u32 = 46; pub const SEMICOLON: u32 = 47; pub const MINUS: u32 = 48; pub const STAR: u32 = 49;
    pub const DOT: u32 = 50;
}

// The marks, in the order of their actions.
#[rattlefmt::skip]
mod mark {
    pub const LINE_WORD: u32 = 0; pub const SYMBOL: u32 = 1; pub const FACTOR: u32 = 2; pub const LISTED: u32 = 3;
    pub const CONSTANT: u32 = 4; pub const BOUND_WORD: u32 = 5; pub const SIZE_NUMBER: u32 = 6;
    pub const RULE_NUMBER: u32 = 7; pub const STEP_NUMBER: u32 = 8; pub const PLACE_NUMBER: u32 = 9;
    pub const FIRST_NUMBER: u32 = 10; pub const SECOND_NUMBER: u32 = 11; pub const ROW_NUMBER: u32 = 12;
    pub const OTHER_NUMBER: u32 = 13; pub const VARIABLE_NUMBER: u32 = 14; pub const DEN_NUMBER: u32 = 15;
    pub const AMOUNT_NUMBER: u32 = 16; pub const BASE_NUMBER: u32 = 17; pub const DIVISOR_NUMBER: u32 = 18;
    pub const NEGATIVE: u32 = 19; pub const MONOMIAL_READ: u32 = 20; pub const ONE_ROW_READ: u32 = 21;
    pub const TWO_ROWS_READ: u32 = 22; pub const ZERO_ROW_READ: u32 = 23; pub const CERTIFICATE_READ: u32 = 24;
    pub const FUNCTION_READ: u32 = 25; pub const FUNCTIONS_READ: u32 = 26; pub const KEEPS: u32 = 27;
    pub const RESETS: u32 = 28; pub const GAIN_READ: u32 = 29; pub const CITED_READ: u32 = 30;
    pub const MOVE_READ: u32 = 31; pub const PAYMENT_READ: u32 = 32; pub const CHARGE_READ: u32 = 33;
    pub const PHASE_MOVE_READ: u32 = 34; pub const COUNTED_READ: u32 = 35; pub const FORM_READ: u32 = 36;
    pub const FLOOR_READ: u32 = 37; pub const BY_ONE: u32 = 38; pub const BY_EACH: u32 = 39;
    pub const BOUND_BEGINS: u32 = 40; pub const PART_READ: u32 = 41; pub const OPENS_SUM: u32 = 42;
    pub const OPENS_PRODUCT: u32 = 43; pub const OPENS_MAXIMUM: u32 = 44; pub const OPENS_MINIMUM: u32 = 45;
    pub const OPENS_QUOTIENT: u32 = 46; pub const OPENS_ROOT: u32 = 47; pub const OPENS_POWER: u32 = 48;
    pub const CLOSES: u32 = 49; pub const FALL_READ: u32 = 50; pub const PEAK_READ: u32 = 51;
    pub const ROW_READ: u32 = 52; pub const TIMES_READ: u32 = 53; pub const LEAST_READ: u32 = 54;
    pub const ADD_READ: u32 = 55; pub const AMONG_READ: u32 = 56; pub const SIZED_READ: u32 = 57;
    pub const PHASES_READ: u32 = 58; pub const TIME_READ: u32 = 59; pub const COST_READ: u32 = 60;
    pub const TOTAL_READ: u32 = 61; pub const ABOVE_READ: u32 = 62; pub const BELOW_READ: u32 = 63;
}

/// The number of classes of pieces.
pub const CLASSES: u32 = 52;
/// The number of rounds after which no entry of the table changes.
pub const ROUNDS: u32 = 6;

// The nonterminals, in the order of their rules.
const TEXT: u32 = 0;

const LINE: u32 = 1;

const LEMMA: u32 = 2;

const CLAIM: u32 = 3;

const TABLE: u32 = 4;

const TO_BOUND: u32 = 5;

const FUNCTION_LIST: u32 = 6;

const FUNCTIONS: u32 = 7;

const MORE_FUNCTIONS: u32 = 8;

const FUNCTION: u32 = 9;

const MOVE_LIST: u32 = 10;

const MOVES: u32 = 11;

const MORE_MOVES: u32 = 12;

const MOVE: u32 = 13;

const MOVE_KIND: u32 = 14;

const CITED: u32 = 15;

const PAYMENT_LIST: u32 = 16;

const PAYMENTS: u32 = 17;

const MORE_PAYMENTS: u32 = 18;

const PAYMENT: u32 = 19;

const CHARGE_LIST: u32 = 20;

const CHARGES: u32 = 21;

const MORE_CHARGES: u32 = 22;

const CHARGE: u32 = 23;

const PHASE_MOVE_LIST: u32 = 24;

const PHASE_MOVES: u32 = 25;

const MORE_PHASE_MOVES: u32 = 26;

const PHASE_MOVE: u32 = 27;

const COUNTED_LIST: u32 = 28;

const COUNTED: u32 = 29;

const MORE_COUNTED: u32 = 30;

const COUNTED_RULE: u32 = 31;

const POLYNOMIAL: u32 = 32;

const MONOMIALS: u32 = 33;

const MORE_MONOMIALS: u32 = 34;

const MONOMIAL: u32 = 35;

const COEFFICIENT: u32 = 36;

const FACTORS: u32 = 37;

const CERTIFICATE: u32 = 38;

const SUMMANDS: u32 = 39;

const MORE_SUMMANDS: u32 = 40;

const SUMMAND: u32 = 41;

const SUMMAND_ROWS: u32 = 42;

const OPPOSITE_ROWS: u32 = 43;

const NUMBERS: u32 = 44;

const LISTED_NUMBERS: u32 = 45;

const MORE_NUMBERS: u32 = 46;

const BOUND: u32 = 47;

const BOUNDS: u32 = 48;

const MORE_BOUNDS: u32 = 49;

const SUPPORT: u32 = 50;

const PLACE: u32 = 51;

const A_NAME: u32 = 52;

const NATURAL: u32 = 53;

/// The rules.
#[rattlefmt::skip]
pub const LINE_GRAMMAR: [Item; 654] = [
    // text, line
    AMade(LINE), AMade(TEXT), Or, End,
    AMark(mark::LINE_WORD), APiece(word::SIGNED), APiece(BLANK), AMade(LEMMA), APiece(LINE_FEED), Or,
    AMark(mark::LINE_WORD), APiece(word::CLAIM), APiece(BLANK), AMade(CLAIM), APiece(LINE_FEED), End,
    // a lemma
    APiece(word::FALL), APiece(BLANK), AMade(TABLE), APiece(BLANK), APiece(word::PAYS), APiece(BLANK),
    AMade(PAYMENT_LIST), AMade(TO_BOUND), AMark(mark::FALL_READ), Or, APiece(word::PEAK), APiece(BLANK),
    AMark(mark::RULE_NUMBER), AMade(NATURAL), APiece(BLANK), AMade(POLYNOMIAL), AMark(mark::FORM_READ), APiece(BLANK),
    AMade(CERTIFICATE), AMark(mark::FLOOR_READ), APiece(BLANK), AMade(TABLE), AMade(TO_BOUND), AMark(mark::PEAK_READ),
    Or, APiece(word::ROW), APiece(BLANK), AMark(mark::RULE_NUMBER), AMade(NATURAL), APiece(BLANK), AMade(POLYNOMIAL),
    AMark(mark::FORM_READ), APiece(BLANK), AMade(CERTIFICATE), AMark(mark::FLOOR_READ), APiece(BLANK),
    APiece(word::MOST), APiece(BLANK), AMark(mark::AMOUNT_NUMBER), AMade(NATURAL), AMade(TO_BOUND),
    AMark(mark::ROW_READ), Or, APiece(word::TIMES), APiece(BLANK), AMark(mark::RULE_NUMBER), AMade(NATURAL),
    APiece(BLANK), AMade(POLYNOMIAL), AMark(mark::FORM_READ), APiece(BLANK), APiece(word::BY), APiece(BLANK),
    AMark(mark::FIRST_NUMBER), AMade(NATURAL), APiece(BLANK), AMark(mark::SECOND_NUMBER), AMade(NATURAL),
    AMade(TO_BOUND), AMark(mark::TIMES_READ), Or, APiece(word::LEAST), APiece(BLANK), AMark(mark::FIRST_NUMBER),
    AMade(NATURAL), APiece(BLANK), AMark(mark::SECOND_NUMBER), AMade(NATURAL), AMade(TO_BOUND),
    AMark(mark::LEAST_READ), Or, APiece(word::ADD), APiece(BLANK), AMark(mark::FIRST_NUMBER), AMade(NATURAL),
    APiece(BLANK), AMark(mark::SECOND_NUMBER), AMade(NATURAL), AMade(TO_BOUND), AMark(mark::ADD_READ), Or,
    APiece(word::AMONG), APiece(BLANK), AMade(CHARGE_LIST), APiece(BLANK), APiece(word::BY), APiece(BLANK),
    AMark(mark::FIRST_NUMBER), AMade(NATURAL), AMade(TO_BOUND), AMark(mark::AMONG_READ), Or, APiece(word::SIZED),
    APiece(BLANK), AMark(mark::RULE_NUMBER), AMade(NATURAL), APiece(BLANK), AMade(POLYNOMIAL), AMark(mark::FORM_READ),
    APiece(BLANK), APiece(word::BY), APiece(BLANK), AMade(NUMBERS), AMade(TO_BOUND), AMark(mark::SIZED_READ), Or,
    APiece(word::PHASES), APiece(BLANK), AMade(FUNCTION_LIST), AMark(mark::FUNCTIONS_READ), APiece(BLANK),
    AMade(FUNCTION_LIST), APiece(BLANK), APiece(word::DEN), APiece(BLANK), AMark(mark::DEN_NUMBER), AMade(NATURAL),
    APiece(BLANK), APiece(word::MOVES), APiece(BLANK), AMade(PHASE_MOVE_LIST), APiece(BLANK), APiece(word::COUNTS),
    APiece(BLANK), AMade(COUNTED_LIST), AMade(TO_BOUND), AMark(mark::PHASES_READ), End,
    // a claim
    APiece(word::TIME), APiece(BLANK), AMark(mark::RULE_NUMBER), AMade(NATURAL), APiece(BLANK), APiece(word::BY),
    APiece(BLANK), AMade(SUPPORT), AMark(mark::TIME_READ), Or, APiece(word::COST), APiece(BLANK),
    AMark(mark::RULE_NUMBER), AMade(NATURAL), APiece(BLANK), APiece(word::BY), APiece(BLANK), AMade(SUPPORT),
    AMark(mark::COST_READ), Or, APiece(word::TOTAL), APiece(BLANK), APiece(word::BY), APiece(BLANK), AMade(SUPPORT),
    AMark(mark::TOTAL_READ), Or, APiece(word::ABOVE), APiece(BLANK), AMade(PLACE), APiece(BLANK), APiece(word::BY),
    APiece(BLANK), AMade(NUMBERS), AMade(TO_BOUND), AMark(mark::ABOVE_READ), Or, APiece(word::BELOW), APiece(BLANK),
    AMade(PLACE), APiece(BLANK), APiece(word::BY), APiece(BLANK), AMade(NUMBERS), AMade(TO_BOUND),
    AMark(mark::BELOW_READ), End,
    // a table, and the bound of a line
    AMade(FUNCTION_LIST), APiece(BLANK), APiece(word::DEN), APiece(BLANK), AMark(mark::DEN_NUMBER), AMade(NATURAL),
    APiece(BLANK), APiece(word::MOVES), APiece(BLANK), AMade(MOVE_LIST), End,
    APiece(BLANK), APiece(word::TO), APiece(BLANK), AMark(mark::BOUND_BEGINS), AMade(BOUND), End,
    // functions of symbols
    APiece(word::FUNCTIONS), APiece(BLANK), APiece(OPEN_SQUARE), AMade(FUNCTIONS), End,
    APiece(CLOSE_SQUARE), Or, AMade(FUNCTION), AMade(MORE_FUNCTIONS), End,
    APiece(CLOSE_SQUARE), Or, APiece(SEMICOLON), APiece(BLANK), AMade(FUNCTION), AMade(MORE_FUNCTIONS), End,
    AMark(mark::SYMBOL), AMade(A_NAME), APiece(BLANK), AMade(POLYNOMIAL), AMark(mark::FUNCTION_READ), End,
    // moves
    APiece(OPEN_SQUARE), AMade(MOVES), End,
    APiece(CLOSE_SQUARE), Or, AMade(MOVE), AMade(MORE_MOVES), End,
    APiece(CLOSE_SQUARE), Or, APiece(SEMICOLON), APiece(BLANK), AMade(MOVE), AMade(MORE_MOVES), End,
    AMark(mark::STEP_NUMBER), AMade(NATURAL), APiece(BLANK), AMade(MOVE_KIND), APiece(BLANK), AMade(POLYNOMIAL),
    AMark(mark::GAIN_READ), APiece(BLANK), AMade(CITED), AMade(CERTIFICATE), AMark(mark::MOVE_READ), End,
    APiece(word::KEEP), AMark(mark::KEEPS), Or, APiece(word::RESET), AMark(mark::RESETS), End,
    APiece(word::BY), APiece(BLANK), AMark(mark::FIRST_NUMBER), AMade(NATURAL), AMark(mark::CITED_READ), APiece(BLANK),
    Or, End,
    // payments
    APiece(OPEN_SQUARE), AMade(PAYMENTS), End,
    APiece(CLOSE_SQUARE), Or, AMade(PAYMENT), AMade(MORE_PAYMENTS), End,
    APiece(CLOSE_SQUARE), Or, APiece(SEMICOLON), APiece(BLANK), AMade(PAYMENT), AMade(MORE_PAYMENTS), End,
    AMark(mark::STEP_NUMBER), AMade(NATURAL), APiece(BLANK), AMade(POLYNOMIAL), AMark(mark::GAIN_READ), APiece(BLANK),
    AMade(CERTIFICATE), APiece(BLANK), AMade(CERTIFICATE), AMark(mark::PAYMENT_READ), End,
    // charges
    APiece(OPEN_SQUARE), AMade(CHARGES), End,
    APiece(CLOSE_SQUARE), Or, AMade(CHARGE), AMade(MORE_CHARGES), End,
    APiece(CLOSE_SQUARE), Or, APiece(SEMICOLON), APiece(BLANK), AMade(CHARGE), AMade(MORE_CHARGES), End,
    AMark(mark::STEP_NUMBER), AMade(NATURAL), APiece(BLANK), AMade(POLYNOMIAL), AMark(mark::CHARGE_READ), End,
    // moves of two phases
    APiece(OPEN_SQUARE), AMade(PHASE_MOVES), End,
    APiece(CLOSE_SQUARE), Or, AMade(PHASE_MOVE), AMade(MORE_PHASE_MOVES), End,
    APiece(CLOSE_SQUARE), Or, APiece(SEMICOLON), APiece(BLANK), AMade(PHASE_MOVE), AMade(MORE_PHASE_MOVES), End,
    AMark(mark::STEP_NUMBER), AMade(NATURAL), APiece(BLANK), AMade(CERTIFICATE), APiece(BLANK), AMade(CERTIFICATE),
    AMark(mark::PHASE_MOVE_READ), End,
    // counted rules
    APiece(OPEN_SQUARE), AMade(COUNTED), End,
    APiece(CLOSE_SQUARE), Or, AMade(COUNTED_RULE), AMade(MORE_COUNTED), End,
    APiece(CLOSE_SQUARE), Or, APiece(SEMICOLON), APiece(BLANK), AMade(COUNTED_RULE), AMade(MORE_COUNTED), End,
    AMark(mark::STEP_NUMBER), AMade(NATURAL), APiece(BLANK), AMade(CERTIFICATE), AMark(mark::COUNTED_READ), End,
    // polynomials
    APiece(OPEN_SQUARE), AMade(MONOMIALS), End,
    APiece(CLOSE_SQUARE), Or, AMade(MONOMIAL), AMade(MORE_MONOMIALS), End,
    APiece(CLOSE_SQUARE), Or, APiece(SEMICOLON), APiece(BLANK), AMade(MONOMIAL), AMade(MORE_MONOMIALS), End,
    AMade(COEFFICIENT), AMade(FACTORS), AMark(mark::MONOMIAL_READ), End,
    AMark(mark::SIZE_NUMBER), AMade(NATURAL), Or, APiece(MINUS), AMark(mark::NEGATIVE), AMark(mark::SIZE_NUMBER),
    APiece(POSITIVE), End,
    APiece(STAR), AMark(mark::FACTOR), AMade(NATURAL), AMade(FACTORS), Or, End,
    // certificates
    APiece(OPEN_CURLY), AMade(SUMMANDS), AMark(mark::CERTIFICATE_READ), End,
    APiece(CLOSE_CURLY), Or, AMade(SUMMAND), AMade(MORE_SUMMANDS), End,
    APiece(CLOSE_CURLY), Or, APiece(SEMICOLON), APiece(BLANK), AMade(SUMMAND), AMade(MORE_SUMMANDS), End,
    AMark(mark::SIZE_NUMBER), AMade(NATURAL), APiece(BLANK), AMade(SUMMAND_ROWS), Or, APiece(MINUS),
    AMark(mark::NEGATIVE), AMark(mark::SIZE_NUMBER), APiece(POSITIVE), APiece(BLANK), AMade(OPPOSITE_ROWS), End,
    APiece(word::ROW), APiece(BLANK), AMark(mark::ROW_NUMBER), AMade(NATURAL), AMark(mark::ONE_ROW_READ), Or,
    APiece(word::ROWS), APiece(BLANK), AMark(mark::ROW_NUMBER), AMade(NATURAL), APiece(BLANK),
    AMark(mark::OTHER_NUMBER), AMade(NATURAL), AMark(mark::TWO_ROWS_READ), Or, AMade(OPPOSITE_ROWS), End,
    APiece(word::ZERO), APiece(BLANK), AMark(mark::ROW_NUMBER), AMade(NATURAL), APiece(BLANK),
    AMark(mark::OTHER_NUMBER), AMade(NATURAL), APiece(BLANK), APiece(word::BY), APiece(BLANK),
    AMark(mark::VARIABLE_NUMBER), AMade(NATURAL), AMark(mark::ZERO_ROW_READ), End,
    // lists of numbers
    APiece(OPEN_SQUARE), AMade(LISTED_NUMBERS), End,
    APiece(CLOSE_SQUARE), Or, AMark(mark::LISTED), AMade(NATURAL), AMade(MORE_NUMBERS), End,
    APiece(CLOSE_SQUARE), Or, APiece(BLANK), AMark(mark::LISTED), AMade(NATURAL), AMade(MORE_NUMBERS), End,
    // bounds
    AMark(mark::CONSTANT), AMade(NATURAL), Or, AMark(mark::BOUND_WORD), APiece(word::PART), APiece(BLANK),
    AMade(POLYNOMIAL), AMark(mark::PART_READ), Or, AMark(mark::BOUND_WORD), APiece(word::SUM), APiece(BLANK),
    APiece(OPEN), AMark(mark::OPENS_SUM), AMade(BOUNDS), AMark(mark::CLOSES), Or, AMark(mark::BOUND_WORD),
    APiece(word::PRODUCT), APiece(BLANK), APiece(OPEN), AMark(mark::OPENS_PRODUCT), AMade(BOUNDS), AMark(mark::CLOSES),
    Or, AMark(mark::BOUND_WORD), APiece(word::MAXIMUM), APiece(BLANK), APiece(OPEN), AMark(mark::OPENS_MAXIMUM),
    AMade(BOUNDS), AMark(mark::CLOSES), Or, AMark(mark::BOUND_WORD), APiece(word::MINIMUM), APiece(BLANK),
    APiece(OPEN), AMark(mark::OPENS_MINIMUM), AMade(BOUND), AMade(MORE_BOUNDS), AMark(mark::CLOSES), Or,
    AMark(mark::BOUND_WORD), APiece(word::QUOTIENT), APiece(BLANK), APiece(OPEN), AMark(mark::OPENS_QUOTIENT),
    AMade(BOUND), APiece(CLOSE), APiece(BLANK), APiece(word::BY), APiece(BLANK), AMark(mark::DIVISOR_NUMBER),
    AMade(NATURAL), AMark(mark::CLOSES), Or, AMark(mark::BOUND_WORD), APiece(word::ROOT), APiece(BLANK), APiece(OPEN),
    AMark(mark::OPENS_ROOT), AMade(BOUND), APiece(CLOSE), AMark(mark::CLOSES), Or, AMark(mark::BOUND_WORD),
    APiece(word::POWER), APiece(BLANK), AMark(mark::BASE_NUMBER), AMade(NATURAL), APiece(BLANK), APiece(word::TO),
    APiece(BLANK), APiece(OPEN), AMark(mark::OPENS_POWER), AMade(BOUND), APiece(CLOSE), AMark(mark::CLOSES), End,
    APiece(CLOSE), Or, AMade(BOUND), AMade(MORE_BOUNDS), End,
    APiece(CLOSE), Or, APiece(SEMICOLON), APiece(BLANK), AMade(BOUND), AMade(MORE_BOUNDS), End,
    // what a claim cites, and a place
    AMark(mark::FIRST_NUMBER), AMade(NATURAL), AMark(mark::BY_ONE), Or, AMade(NUMBERS), AMade(TO_BOUND),
    AMark(mark::BY_EACH), End,
    AMark(mark::RULE_NUMBER), AMade(NATURAL), APiece(DOT), AMark(mark::PLACE_NUMBER), AMade(NATURAL), End,
    // a name, a natural number
    APiece(word::SIGNED), Or, APiece(word::FALL), Or, APiece(word::PEAK), Or, APiece(word::ROW), Or,
    APiece(word::ROWS), Or, APiece(word::ZERO), Or, APiece(word::TIMES), Or, APiece(word::LEAST), Or,
    APiece(word::ADD), Or, APiece(word::AMONG), Or, APiece(word::SIZED), Or, APiece(word::PHASES), Or,
    APiece(word::FUNCTIONS), Or, APiece(word::DEN), Or, APiece(word::MOVES), Or, APiece(word::PAYS), Or,
    APiece(word::COUNTS), Or, APiece(word::KEEP), Or, APiece(word::RESET), Or, APiece(word::BY), Or,
    APiece(word::MOST), Or, APiece(word::TO), Or, APiece(word::PART), Or, APiece(word::SUM), Or, APiece(word::PRODUCT),
    Or, APiece(word::MAXIMUM), Or, APiece(word::MINIMUM), Or, APiece(word::QUOTIENT), Or, APiece(word::ROOT), Or,
    APiece(word::POWER), Or, APiece(word::CLAIM), Or, APiece(word::TIME), Or, APiece(word::COST), Or,
    APiece(word::TOTAL), Or, APiece(word::ABOVE), Or, APiece(word::BELOW), Or, APiece(NAME), End,
    APiece(ZERO), Or, APiece(POSITIVE), End,
];
