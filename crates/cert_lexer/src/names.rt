//! Looks up the names of a program's symbols at the beginning of bytes.

ghost use Rattle.std.specs.Prelude.{◌≡◌, ◌∷◌, ◌^◌, ◌-◌, min, length, map, IfOk, IsTrue};
ghost use Rattle.std.specs.List.{list_all};
ghost use Rattle.std.specs.Char.{is_ascii_digit};
ghost use Rattle.its_model.specs.Views.{name_of};
ghost use Rattle.text_grammar.specs.text_core.Names.{AreDistinct, continues_name, position_of};
ghost use Rattle.text_grammar.specs.text_core.Prefixes.{prefix, rest};
ghost use Rattle.cert_lexer.specs.Lexing.{goes_on as goes_on_at};
ghost use Rattle.cert_lexer.specs.Found.{symbols_in};

use indexmap::IndexSet;
use its_model::Symbol;
use model::Memory;
use std::alloc::Global;
use text_core::{continues_name as continues, digits_len, name_len};

/// The names of symbols, which all differ, with a table from names to positions; a look-up takes near-constant time.
#[derive(Drop)]
pub struct Symbols<'a> {
    names: IndexSet<&'a [u8]>,
}

impl<'a> Symbols<'a> {
    /// The names of these symbols.
    ///
    /// # Errors
    ///
    /// `Memory` where an allocation fails.
    pub fn new(alloc: Global, symbols: &'a [Symbol]) -> Result<Symbols<'a>, Memory>
        requires { AreDistinct (map (λ s. name_of s.name) symbols.now) }
        ensures { IfOk result (λ listed. symbols_in listed ≡ map (λ s. name_of s.name) symbols.now) }
    {
        let mut set = IndexSet::new(alloc);
        for symbol in symbols {
            set.insert(symbol.name.bytes.as_slice())?;
        }
        Ok(Symbols { names: set })
    }

    /// The position of a name in the list, or the number of names if it isn't listed.
    pub fn position_or_count(&self, name: &[u8]) -> usize
        ensures { result ≡ position_of name.now (symbols_in self.now) }
    {
        match self.names.get_index_of(&name) {
            Some(position) => position,
            None => self.names.len(),
        }
    }
}

/// The number as a `u32`, or the greatest number that a `u32` holds.
pub fn number_of(position: usize) -> u32
    ensures { result ≡ min position (2 ^ 32 - 1) }
{
    position.min(u32::MAX as usize) as u32
}

/// Whether bytes continue a name.
pub fn goes_on(bytes: &[u8]) -> bool
    ensures { result ≡ goes_on_at bytes.now }
{
    match bytes {
        [first, ..] => continues(*first),
        [] => false,
    }
}

/// The name that bytes begin with, and the bytes after it.
pub fn leading_name<'b>(bytes: &'b [u8], first: u8, others: &[u8]) -> (&'b [u8], &'b [u8])
    requires { bytes.now ≡ first ∷ others.now }
    ensures name { result.0.now ≡ first ∷ prefix continues_name others.now }
    ensures behind { result.1.now ≡ rest continues_name others.now }
{
    let _first = first;
    bytes.split_at(1 + name_len(others))
}

/// The digits that bytes begin with.
pub fn leading_digits<'b>(bytes: &'b [u8], first: u8, others: &[u8]) -> &'b [u8]
    requires begins { bytes.now ≡ first ∷ others.now }
    requires digit { IsTrue (is_ascii_digit first) }
    ensures digits { result.now ≡ first ∷ prefix is_ascii_digit others.now }
    ensures all { IsTrue (list_all is_ascii_digit result.now) }
{
    let _first = first;
    &bytes[..1 + digits_len(others)]
}
