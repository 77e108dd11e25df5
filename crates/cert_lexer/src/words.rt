//! Words, and signs (pieces of one byte).

ghost use Rattle.std.specs.Prelude.{◌≡◌};
ghost use Rattle.cert_lexer.specs.declared.piece.Word.TheVariants as words;
ghost use Rattle.cert_lexer.specs.Lexing.{other_words, sign_at as sign_of_byte, word_among, word_of as word_of_name};

use crate::piece::{Piece, Sign, Word};

/// The word that a name is.
pub fn word_of(name: &[u8]) -> Word
    ensures { result ≡ word_of_name name.now }
{
    if name == b"lemma".as_slice() {
        Word::Lemma
    } else if name == b"gap".as_slice() {
        Word::Gap
    } else if name == b"end".as_slice() {
        Word::End
    } else if name == b"cite".as_slice() {
        Word::Cite
    } else if name == b"start".as_slice() {
        Word::Start
    } else if name == b"empty".as_slice() {
        Word::Empty
    } else if name == b"unreached".as_slice() {
        Word::Unreached
    } else if name == b"never".as_slice() {
        Word::Never
    } else if name == b"rank".as_slice() {
        Word::Rank
    } else if name == b"spread".as_slice() {
        Word::Spread
    } else if name == b"cycle".as_slice() {
        Word::Cycle
    } else if name == b"weaken".as_slice() {
        Word::Weaken
    } else if name == b"cost".as_slice() {
        Word::Cost
    } else {
        other_word(name)
    }
}

// The word that a name is, among the words inside nodes and gaps.
fn other_word(name: &[u8]) -> Word
    ensures { result ≡ word_among other_words words.Other name.now }
{
    if name == b"uses".as_slice() {
        Word::Uses
    } else if name == b"set".as_slice() {
        Word::Set
    } else if name == b"den".as_slice() {
        Word::Den
    } else if name == b"forms".as_slice() {
        Word::Forms
    } else if name == b"moves".as_slice() {
        Word::Moves
    } else if name == b"floor".as_slice() {
        Word::Floor
    } else if name == b"up".as_slice() {
        Word::Up
    } else if name == b"low".as_slice() {
        Word::Low
    } else if name == b"poly".as_slice() {
        Word::Poly
    } else if name == b"lin".as_slice() {
        Word::Lin
    } else if name == b"to".as_slice() {
        Word::To
    } else if name == b"shut".as_slice() {
        Word::Shut
    } else if name == b"kept".as_slice() {
        Word::Kept
    } else {
        Word::Other
    }
}

/// The piece of a byte that begins neither a name nor a number.
pub fn sign_at(byte: u8) -> Piece
    ensures { result ≡ sign_of_byte byte }
{
    match byte {
        b' ' => Piece::Sign(Sign::Blank),
        b'\n' => Piece::Sign(Sign::LineFeed),
        b'[' => Piece::Sign(Sign::OpenSquare),
        b']' => Piece::Sign(Sign::CloseSquare),
        b'{' => Piece::Sign(Sign::OpenBrace),
        b'}' => Piece::Sign(Sign::CloseBrace),
        b'(' => Piece::Sign(Sign::Open),
        b')' => Piece::Sign(Sign::Close),
        b';' => Piece::Sign(Sign::Semicolon),
        b'.' => Piece::Sign(Sign::Dot),
        b'-' => Piece::Sign(Sign::Minus),
        _ => Piece::Wrong,
    }
}
