//! The bytes of tokens, and names among the inputs.

ghost use Rattle.std.specs.Prelude.{◌≡◌, ◌-◌, ◌^◌, min, map};
ghost use Rattle.text_grammar.specs.text_core.Names.{is_among as is_among_names};
ghost use Rattle.its_model.specs.Views.{name_of};
ghost use Rattle.while_text.specs.Drafts.{bytes_of as bytes_of_piece, number_of as number_of_name};

use crate::piece::Piece;
use its_model::Name;

/// The bytes of a token of a text.
#[tactic(auto, using(crate::proofs::LexingLaws::taken))]
pub fn bytes_of<'t>(text: &'t [u8], piece: Piece) -> &'t [u8]
    ensures { result.now ≡ bytes_of_piece text.now piece }
{
    let (_, rest) = text.split_at((piece.at as usize).min(text.len()));
    let (bytes, _) = rest.split_at((piece.len as usize).min(rest.len()));
    bytes
}

/// Whether a name is among others.
pub fn is_among(names: &[Name], bytes: &[u8]) -> bool
    ensures { result ≡ is_among_names bytes.now (map name_of names.now) }
{
    for name in names {
        if bytes == name.bytes.as_slice() {
            return true;
        }
    }
    false
}

// A number in 32 bits, or the greatest one of 32 bits if it is greater.
fn in_32(number: usize) -> u32
    ensures { result ≡ min number (2 ^ 32 - 1) }
{
    number.min(u32::MAX as usize) as u32
}

/// The number of an input, or the number of inputs if the name is none of them.
pub fn number_of(names: &[Name], bytes: &[u8]) -> u32
    ensures { result ≡ number_of_name (map name_of names.now) bytes.now }
{
    let mut number = 0;
    for name in names {
        if bytes == name.bytes.as_slice() {
            return in_32(number);
        }
        number += 1;
    }
    in_32(number)
}
