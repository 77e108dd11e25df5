//! The names of a program's symbols, and their positions.

ghost use Rattle.std.specs.Prelude.{◌≡◌, [], map, IfOk};
ghost use Rattle.its_model.specs.Views.{name_of, program_of};
ghost use Rattle.text_grammar.specs.text_core.Names.{AreDistinct, is_among as is_among_names, position_of};
ghost use Rattle.potential_text.specs.SymbolNames.{names_in, symbol_names};

use indexmap::IndexSet;
use its_model::{Program, Symbol};
use model::Memory;
use std::alloc::Global;

/// The names of symbols, in their order, each found by its bytes in time nearly independent of their number.
#[derive(Drop)]
pub struct SymbolNames<'a> {
    names: IndexSet<&'a [u8]>,
}

impl<'a> SymbolNames<'a> {
    /// No name.
    pub fn none(alloc: Global) -> SymbolNames<'a>
        ensures { names_in result ≡ [] }
    {
        SymbolNames {
            names: IndexSet::new(alloc),
        }
    }

    // The names of these symbols.
    fn new(alloc: Global, symbols: &'a [Symbol]) -> Result<SymbolNames<'a>, Memory>
        requires { AreDistinct (map (λ s. name_of s.name) symbols.now) }
        ensures { IfOk result (λ listed. names_in listed ≡ map (λ s. name_of s.name) symbols.now) }
    {
        let mut set = IndexSet::new(alloc);
        for symbol in symbols {
            set.insert(symbol.name.bytes.as_slice())?;
        }
        Ok(SymbolNames { names: set })
    }

    /// The names of a program's symbols.
    ///
    /// # Errors
    ///
    /// `Memory` where an allocation fails.
    pub fn of(alloc: Global, program: &'a Program) -> Result<SymbolNames<'a>, Memory>
        requires { AreDistinct (symbol_names (program_of program.now)) }
        ensures { IfOk result (λ listed. names_in listed ≡ symbol_names (program_of program.now)) }
    {
        let names = SymbolNames::new(alloc, &program.symbols)?;
        Ok(names)
    }

    /// The position of a name, or the number of names where it isn't among them.
    pub fn position_or_count(&self, name: &[u8]) -> usize
        ensures { result ≡ position_of name.now (names_in self.now) }
    {
        match self.names.get_index_of(&name) {
            Some(position) => position,
            None => self.names.len(),
        }
    }

    /// Whether a name is among them.
    pub fn has(&self, name: &[u8]) -> bool
        ensures { result ≡ is_among_names name.now (names_in self.now) }
    {
        self.names.contains(&name)
    }
}
