//! Names and rows of digits at the beginning of bytes, and the bytes of a piece of a text.

ghost use Rattle.std.specs.Prelude.{◌≡◌, ◌∷◌, take, drop, IsTrue};
ghost use Rattle.std.specs.List.{list_all};
ghost use Rattle.std.specs.Char.{is_ascii_digit};
ghost use Rattle.text_core.specs.Names.{continues_name};
ghost use Rattle.text_core.specs.Prefixes.{prefix};

use text_core::{digits_len, name_len};

/// The name that bytes begin with, whose first byte is passed separately, too: that byte, and the longest run of bytes
/// behind it that continue a name.
pub fn leading_name<'b>(bytes: &'b [u8], first: u8, others: &[u8]) -> &'b [u8]
    requires { bytes.now ≡ first ∷ others.now }
    ensures { result.now ≡ first ∷ prefix continues_name others.now }
{
    let _first = first;
    &bytes[..1 + name_len(others)]
}

/// The digits that bytes begin with: the longest run of them.
pub fn leading_digits<'b>(bytes: &'b [u8], first: u8, others: &[u8]) -> &'b [u8]
    requires begins { bytes.now ≡ first ∷ others.now }
    requires digit { IsTrue (is_ascii_digit first) }
    ensures digits { result.now ≡ first ∷ prefix is_ascii_digit others.now }
    ensures all { IsTrue (list_all is_ascii_digit result.now) }
{
    let _first = first;
    &bytes[..1 + digits_len(others)]
}

/// The bytes of a text from a position on, so many, or as many as there are.
#[tactic(auto, using(crate::proofs::FrontLaws::taken))]
pub fn piece_bytes<'t>(text: &'t [u8], at: u64, len: u64) -> &'t [u8]
    ensures { result.now ≡ take len (drop at text.now) }
{
    let (_, rest) = text.split_at((at as usize).min(text.len()));
    let (bytes, _) = rest.split_at((len as usize).min(rest.len()));
    bytes
}
