//! Names of copies and of symbols, and their numbers.

ghost use Rattle.std.specs.Prelude.{◌≡◌, [], map, OnOk};
ghost use Rattle.text_grammar.specs.text_core.Names.{is_among as is_among_names, position_of};
ghost use Rattle.its_model.specs.Views.{symbol_of};
ghost use Rattle.section_text.specs.Drafts.{name_bytes, in_32 as in_32_of, in_64 as in_64_of, signed as signed_of};
ghost use Rattle.section_text.specs.Drafts.{with_name};
ghost use Rattle.section_text.specs.CopyNames.{names_in};

use crate::piece::Piece;
use indexmap::IndexSet;
use its_model::Symbol;
use model::Memory;
use std::alloc::Global;

/// The names of copies, in their order, with a table from names to positions; a look-up takes nearly constant time.
#[derive(Drop)]
pub struct CopyNames<'a> {
    names: IndexSet<&'a [u8]>,
}

impl<'a> CopyNames<'a> {
    /// No names.
    pub fn new(alloc: Global) -> CopyNames<'a>
        ensures { names_in result ≡ [] }
    {
        CopyNames {
            names: IndexSet::new(alloc),
        }
    }

    /// Adds a name, unless it is listed.
    ///
    /// # Errors
    ///
    /// `Memory` where an allocation fails.
    pub fn insert(&mut self, name: &'a [u8]) -> Result<(), Memory>
        ensures { OnOk result (names_in self.new ≡ with_name name.now (names_in self.old)) }
    {
        self.names.insert(name)?;
        Ok(())
    }

    /// The position of a name, or the number of names if it isn't listed.
    pub fn position_or_count(&self, name: &[u8]) -> usize
        ensures { result ≡ position_of name.now (names_in self.now) }
    {
        match self.names.get_index_of(&name) {
            Some(position) => position,
            None => self.names.len(),
        }
    }

    /// Whether a name is listed.
    pub fn has(&self, name: &[u8]) -> bool
        ensures { result ≡ is_among_names name.now (names_in self.now) }
    {
        self.names.contains(&name)
    }
}

/// The bytes of a piece of a text.
#[tactic(auto, using(crate::proofs::LexingLaws::taken))]
pub fn bytes_of<'t>(text: &'t [u8], piece: Piece) -> &'t [u8]
    ensures { result.now ≡ name_bytes text.now piece }
{
    let (_, rest) = text.split_at((piece.at as usize).min(text.len()));
    let (bytes, _) = rest.split_at((piece.len as usize).min(rest.len()));
    bytes
}

/// The position of the symbol with a name, or the number of symbols if none has it.
pub fn symbol_position(symbols: &[Symbol], name: &[u8]) -> usize
    ensures { result ≡ position_of name.now (map (λ s. s.name) (map symbol_of symbols.now)) }
{
    let mut position = 0;
    for symbol in symbols {
        if name == symbol.name.bytes.as_slice() {
            return position;
        }
        position += 1;
    }
    position
}

/// Whether a symbol has a name.
pub fn has_symbol(symbols: &[Symbol], name: &[u8]) -> bool
    ensures { result ≡ is_among_names name.now (map (λ s. s.name) (map symbol_of symbols.now)) }
{
    for symbol in symbols {
        if name == symbol.name.bytes.as_slice() {
            return true;
        }
    }
    false
}

/// A number as a `u32`, or the greatest number that a `u32` holds.
pub fn in_32(number: u128) -> u32
    ensures { result ≡ in_32_of number }
{
    number.min(u128::from(u32::MAX)) as u32
}

/// A position as a `u32`, or the greatest number that a `u32` holds.
pub fn position_in_32(position: usize) -> u32
    ensures { result ≡ in_32_of position }
{
    position.min(u32::MAX as usize) as u32
}

/// A number as a `u64`, or the greatest number that a `u64` holds.
pub fn in_64(number: u128) -> u64
    ensures { result ≡ in_64_of number }
{
    number.min(u128::from(u64::MAX)) as u64
}

/// A number with its sign, up to 2^63-1 in absolute value.
pub fn signed(negative: bool, number: u128) -> i64
    ensures { result ≡ signed_of negative number }
{
    let size = number.min(i64::MAX as u128) as i64;
    if negative { -size } else { size }
}
