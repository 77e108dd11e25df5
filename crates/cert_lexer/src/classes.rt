//! The classes of pieces.

ghost use Rattle.std.specs.Prelude.{◌≡◌};
ghost use Rattle.cert_lexer.specs.Grammar.{class_of as class_of_piece, class_of_number as class_of_numbers};
ghost use Rattle.cert_lexer.specs.Grammar.{class_of_sign as class_of_signs, class_of_word as class_of_words};

use crate::grammar::class;
use crate::piece::{Piece, Sign, Word};

// The class of a word.
fn class_of_word(word: Word) -> u32
    ensures { result ≡ class_of_words word }
{
    match word {
        Word::Lemma => class::LEMMA,
        Word::Gap => class::GAP,
        Word::End => class::END,
        Word::Cite => class::CITE,
        Word::Start => class::START,
        Word::Empty => class::EMPTY,
        Word::Unreached => class::UNREACHED,
        Word::Never => class::NEVER,
        Word::Rank => class::RANK,
        Word::Spread => class::SPREAD,
        Word::Cycle => class::CYCLE,
        Word::Weaken => class::WEAKEN,
        Word::Cost => class::COST,
        Word::Uses => class::USES,
        Word::Set => class::SET,
        Word::Den => class::DEN,
        Word::Forms => class::FORMS,
        Word::Moves => class::MOVES,
        Word::Floor => class::FLOOR,
        Word::Up => class::UP,
        Word::Low => class::LOW,
        Word::Poly => class::POLY,
        Word::Lin => class::LIN,
        Word::To => class::TO,
        Word::Shut => class::SHUT,
        Word::Kept => class::KEPT,
        Word::Other => class::OTHER,
    }
}

// The class of a sign (a piece of one byte).
fn class_of_sign(sign: Sign) -> u32
    ensures { result ≡ class_of_signs sign }
{
    match sign {
        Sign::Blank => class::BLANK,
        Sign::LineFeed => class::LINE_FEED,
        Sign::OpenSquare => class::OPEN_SQUARE,
        Sign::CloseSquare => class::CLOSE_SQUARE,
        Sign::OpenBrace => class::OPEN_BRACE,
        Sign::CloseBrace => class::CLOSE_BRACE,
        Sign::Open => class::OPEN,
        Sign::Close => class::CLOSE,
        Sign::Semicolon => class::SEMICOLON,
        Sign::Dot => class::DOT,
        Sign::Minus => class::MINUS,
    }
}

// The class of a number.
fn class_of_number(number: u128) -> u32
    ensures { result ≡ class_of_numbers number }
{
    if number == 0 {
        class::ZERO
    } else if number == 1 {
        class::ONE
    } else if number == 2 {
        class::TWO
    } else {
        class::MORE
    }
}

/// The class of a piece.
pub fn class_of(piece: Piece) -> u32
    ensures { result ≡ class_of_piece piece }
{
    match piece {
        Piece::First => class::KOAT,
        Piece::Name(word, _) => class_of_word(word),
        Piece::Number(number) => class_of_number(number),
        Piece::Sign(sign) => class_of_sign(sign),
        Piece::Place(..) => class::PLACE,
        Piece::InBound(..) => class::IN_BOUND,
        Piece::Wrong => class::WRONG,
    }
}
