//! The classes of pieces.

ghost use Rattle.std.specs.Prelude.{◌≡◌};
ghost use Rattle.section_text.specs.Grammar as grammar;

use crate::piece::{Sign, Sort, Word};

/// The class of a sort of pieces.
pub fn class_of(sort: Sort) -> u32
    ensures { result ≡ grammar.class_of_sort sort }
{
    match sort {
        Sort::Name(word) => class_of_word(word),
        Sort::Number(number) => { if number == 0 { 12 } else { 13 } }
        Sort::Sign(sign) => class_of_sign(sign),
        Sort::Wrong => 22,
    }
}

// The class of a word.
fn class_of_word(word: Word) -> u32
    ensures { result ≡ grammar.class_of_word word }
{
    match word {
        Word::Copy => 0,
        Word::Of => 1,
        Word::Facts => 2,
        Word::From => 3,
        Word::Rule => 4,
        Word::To => 5,
        Word::By => 6,
        Word::Never => 7,
        Word::If => 8,
        Word::Then => 9,
        Word::Else => 10,
        Word::Other => 11,
    }
}

// The class of a sign.
fn class_of_sign(sign: Sign) -> u32
    ensures { result ≡ grammar.class_of_sign sign }
{
    match sign {
        Sign::Blank => 14,
        Sign::LineFeed => 15,
        Sign::OpenSquare => 16,
        Sign::CloseSquare => 17,
        Sign::Open => 18,
        Sign::Close => 19,
        Sign::Semicolon => 20,
        Sign::Minus => 21,
    }
}
