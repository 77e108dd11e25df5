//! The classes of pieces.

ghost use Rattle.std.specs.Prelude.{◌≡◌};
ghost use Rattle.potential_text.specs.Grammar as grammar;

use crate::piece::{Sign, Sort, Word};

/// The class of a sort of pieces.
pub fn class_of(sort: Sort) -> u32
    ensures { result ≡ grammar.class_of_sort sort }
{
    match sort {
        Sort::Name(word) => class_of_word(word),
        Sort::Number(number) => { if number == 0 { 37 } else { 38 } }
        Sort::Sign(sign) => class_of_sign(sign),
        Sort::Wrong => 51,
    }
}

// The class of a word.
fn class_of_word(word: Word) -> u32
    ensures { result ≡ grammar.class_of_word word }
{
    match word {
        Word::Signed => 0,
        Word::Fall => 1,
        Word::Peak => 2,
        Word::Row => 3,
        Word::Rows => 4,
        Word::Zero => 5,
        Word::Times => 6,
        Word::Least => 7,
        Word::Add => 8,
        Word::Among => 9,
        Word::Sized => 10,
        Word::Phases => 11,
        Word::Functions => 12,
        Word::Den => 13,
        Word::Moves => 14,
        Word::Pays => 15,
        Word::Counts => 16,
        Word::Keep => 17,
        Word::Reset => 18,
        Word::By => 19,
        Word::Most => 20,
        Word::To => 21,
        Word::Part => 22,
        Word::Sum => 23,
        Word::Product => 24,
        Word::Maximum => 25,
        Word::Minimum => 26,
        Word::Quotient => 27,
        Word::Root => 28,
        Word::Power => 29,
        Word::Claim => 30,
        Word::Time => 31,
        Word::Cost => 32,
        Word::Total => 33,
        Word::Above => 34,
        Word::Below => 35,
        Word::Other => 36,
    }
}

// The class of a sign.
fn class_of_sign(sign: Sign) -> u32
    ensures { result ≡ grammar.class_of_sign sign }
{
    match sign {
        Sign::Blank => 39,
        Sign::LineFeed => 40,
        Sign::OpenSquare => 41,
        Sign::CloseSquare => 42,
        Sign::OpenCurly => 43,
        Sign::CloseCurly => 44,
        Sign::Open => 45,
        Sign::Close => 46,
        Sign::Semicolon => 47,
        Sign::Minus => 48,
        Sign::Star => 49,
        Sign::Dot => 50,
    }
}
