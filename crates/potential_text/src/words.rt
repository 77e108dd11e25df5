//! Which word a name is.

ghost use Rattle.std.specs.Prelude.{◌≡◌};
ghost use Rattle.potential_text.specs.Lexing as lexing;

use crate::piece::{Sign, Sort, Word};

/// The word that a name is, if it is one: those that begin lines, lemmas and summands first.
pub fn word_of(name: &[u8]) -> Word
    ensures { result ≡ lexing.word_of name.now }
{
    if name == b"signed".as_slice() {
        Word::Signed
    } else if name == b"fall".as_slice() {
        Word::Fall
    } else if name == b"peak".as_slice() {
        Word::Peak
    } else if name == b"row".as_slice() {
        Word::Row
    } else if name == b"rows".as_slice() {
        Word::Rows
    } else if name == b"zero".as_slice() {
        Word::Zero
    } else if name == b"times".as_slice() {
        Word::Times
    } else if name == b"least".as_slice() {
        Word::Least
    } else if name == b"add".as_slice() {
        Word::Add
    } else if name == b"among".as_slice() {
        Word::Among
    } else if name == b"sized".as_slice() {
        Word::Sized
    } else if name == b"phases".as_slice() {
        Word::Phases
    } else {
        part_word(name)
    }
}

// The word of the parts of lemmas that a name is, or one of those below.
fn part_word(name: &[u8]) -> Word
    ensures { result ≡ lexing.part_word name.now }
{
    if name == b"functions".as_slice() {
        Word::Functions
    } else if name == b"den".as_slice() {
        Word::Den
    } else if name == b"moves".as_slice() {
        Word::Moves
    } else if name == b"pays".as_slice() {
        Word::Pays
    } else if name == b"counts".as_slice() {
        Word::Counts
    } else if name == b"keep".as_slice() {
        Word::Keep
    } else if name == b"reset".as_slice() {
        Word::Reset
    } else if name == b"by".as_slice() {
        Word::By
    } else if name == b"most".as_slice() {
        Word::Most
    } else if name == b"to".as_slice() {
        Word::To
    } else {
        bound_word(name)
    }
}

// The word of bounds that a name is, or one of those below.
fn bound_word(name: &[u8]) -> Word
    ensures { result ≡ lexing.bound_word name.now }
{
    if name == b"part".as_slice() {
        Word::Part
    } else if name == b"sum".as_slice() {
        Word::Sum
    } else if name == b"product".as_slice() {
        Word::Product
    } else if name == b"maximum".as_slice() {
        Word::Maximum
    } else if name == b"minimum".as_slice() {
        Word::Minimum
    } else if name == b"quotient".as_slice() {
        Word::Quotient
    } else if name == b"root".as_slice() {
        Word::Root
    } else if name == b"power".as_slice() {
        Word::Power
    } else {
        claim_word(name)
    }
}

// The word of claims that a name is, if it is one.
fn claim_word(name: &[u8]) -> Word
    ensures { result ≡ lexing.claim_word name.now }
{
    if name == b"claim".as_slice() {
        Word::Claim
    } else if name == b"time".as_slice() {
        Word::Time
    } else if name == b"cost".as_slice() {
        Word::Cost
    } else if name == b"total".as_slice() {
        Word::Total
    } else if name == b"above".as_slice() {
        Word::Above
    } else if name == b"below".as_slice() {
        Word::Below
    } else {
        Word::Other
    }
}

/// The sort of a byte that begins neither a name nor a number.
pub fn sign_at(byte: u8) -> Sort
    ensures { result ≡ lexing.sign_at byte }
{
    match byte {
        b' ' => Sort::Sign(Sign::Blank),
        b'\n' => Sort::Sign(Sign::LineFeed),
        b'[' => Sort::Sign(Sign::OpenSquare),
        b']' => Sort::Sign(Sign::CloseSquare),
        b'{' => Sort::Sign(Sign::OpenCurly),
        b'}' => Sort::Sign(Sign::CloseCurly),
        b'(' => Sort::Sign(Sign::Open),
        b')' => Sort::Sign(Sign::Close),
        b';' => Sort::Sign(Sign::Semicolon),
        b'-' => Sort::Sign(Sign::Minus),
        b'*' => Sort::Sign(Sign::Star),
        b'.' => Sort::Sign(Sign::Dot),
        _ => Sort::Wrong,
    }
}
