//! The symbols of a text, by name and by number.

ghost use Rattle.std.specs.Prelude.{◌≡◌, ◌∷◌, ◌++◌, [], length, if◌then◌else◌, nat_lt, IfOk, OnOk, slice_index};
ghost use Rattle.std.specs.Prelude.{slice_get};
ghost use Rattle.its_reader.specs.Finishing.{is_named, tabled, symbol_in, with_arity};
ghost use Rattle.text_core.specs.Names.{position_of};
ghost use Rattle.its_text.specs.expr_text.Terms.{with_name};
ghost use Rattle.expr_reader.specs.Variables.{names_in};

use crate::error::ReadError;
use expr_reader::Variables;
use model::Memory;
use std::alloc::{AllocError, Global};

/// The symbols so far, each with the number of its places, in order of first occurrence.
#[derive(Drop)]
pub(crate) struct Symbols<'a> {
    pub names: Variables<'a>,
    pub arities: Vec<u32>,
}

/// A symbol's number, and the number of its places.
#[derive(Clone, Copy)]
pub(crate) struct KnownSymbol {
    pub number: usize,
    pub arity: u32,
}

/// A symbol's name, and the number of its places.
#[derive(Clone, Copy)]
pub(crate) struct SymbolEntry<'a> {
    pub name: &'a [u8],
    pub arity: u32,
}

/// A count as a number of 32 bits; memory holds no greater counts.
pub(crate) fn to_u32(count: usize) -> Result<u32, Memory>
    ensures { IfOk result (λ n. n ≡ count) }
{
    u32::try_from(count).map_err(|_| AllocError)
}

impl<'a> Symbols<'a> {
    /// No symbols.
    pub(crate) fn new(alloc: Global) -> Symbols<'a>
        ensures names { names_in result.names ≡ [] }
        ensures arities { result.arities.items ≡ [] }
    {
        Symbols {
            names: Variables::new(alloc),
            arities: Vec::new(alloc),
        }
    }

    /// The symbol of a term. A new symbol is appended, with this many places.
    pub(crate) fn of_term(&mut self, name: &'a [u8], arity: u32) -> Result<KnownSymbol, Memory>
        ensures number { IfOk result (λ known. known.number ≡ position_of name.now (names_in self.old.names)) }
        ensures names { OnOk result (names_in self.new.names ≡ with_name (names_in self.old.names) name.now) }
        ensures arities { OnOk result (self.new.arities.items
            ≡ (if nat_lt (position_of name.now (names_in self.old.names))
            (length self.old.arities.items) then self.old.arities.items else self.old.arities.items ++ arity ∷ [])) }
        ensures arity { IfOk result (λ known. known.arity ≡ slice_index self.new.arities.items known.number) }
    {
        let number = self.names.number(name)?;
        self.keep(number, arity)?;
        match self.arities.get(number) {
            Some(arity) => Ok(KnownSymbol {
                number,
                arity: *arity,
            }),
            None => Err(AllocError),
        }
    }

    /// Whether the symbol with a number has this name.
    pub(crate) fn is_named(&self, number: u32, name: &[u8]) -> bool
        ensures { result ≡ is_named (names_in self.now.names) name.now number }
    {
        match self.names.names().get_index(number as usize) {
            Some(known) => name == *known,
            None => false,
        }
    }

    /// The symbol with a number.
    pub(crate) fn get(&self, number: usize) -> Option<SymbolEntry<'a>>
        ensures { symbol_in result ≡ slice_get (tabled (names_in self.now.names) self.now.arities.items) number }
    {
        match self.names.names().get_index(number) {
            Some(name) => self.listed(name, number),
            None => None,
        }
    }

    fn listed(&self, name: &'a [u8], number: usize) -> Option<SymbolEntry<'a>>
        ensures { symbol_in result ≡ with_arity name.now (slice_get self.now.arities.items number) }
    {
        match self.arities.get(number) {
            Some(arity) => Some(SymbolEntry {
                name,
                arity: *arity,
            }),
            None => None,
        }
    }

    // Stores the number of places of a new symbol.
    fn keep(&mut self, number: usize, arity: u32) -> Result<(), Memory>
        ensures arities { OnOk result (self.new.arities.items
            ≡ (if nat_lt number (length self.old.arities.items) then self.old.arities.items else
            self.old.arities.items ++ arity ∷ [])) }
        ensures names { self.new.names ≡ self.old.names }
    {
        if number < self.arities.len() {
            Ok(())
        } else {
            self.arities.push(arity)?;
            Ok(())
        }
    }
}
