//! The variables of a rule, in order of first occurrence.

ghost use Rattle.std.specs.Prelude.{◌≡◌, ◌≤◌, [], length, map, IfOk, OnOk};
ghost use Rattle.text_core.specs.Names.{is_among, position_of};
ghost use Rattle.expr_text.specs.Terms.{with_name};
ghost use Rattle.expr_reader.specs.Variables.{names_in};

use crate::Memory;
use indexmap::IndexSet;
use std::alloc::Global;

/// Distinct variables. Each is found by its name in time nearly independent of their number.
#[derive(Drop)]
pub struct Variables<'a> {
    names: IndexSet<&'a [u8]>,
}

impl<'a> Variables<'a> {
    /// No variables.
    pub fn new(alloc: Global) -> Variables<'a>
        ensures { names_in result ≡ [] }
    {
        Variables {
            names: IndexSet::new(alloc),
        }
    }

    /// How many variables there are.
    pub fn count(&self) -> usize
        ensures { result ≡ length (names_in self.now) }
    {
        self.names.len()
    }

    /// Whether a name is among the variables.
    pub fn has(&self, name: &'a [u8]) -> bool
        ensures { result ≡ is_among name.now (names_in self.now) }
    {
        self.names.contains(&name)
    }

    /// The number of the variable with this name, counted from 0; a new name is appended.
    ///
    /// # Errors
    ///
    /// `Memory` if an allocation fails.
    pub fn number(&mut self, name: &'a [u8]) -> Result<usize, Memory>
        ensures number { IfOk result (λ number. number ≡ position_of name.now (names_in self.old)) }
        ensures most { IfOk result (λ number. number ≤ length (names_in self.old)) }
        ensures names { OnOk result (names_in self.new ≡ with_name (names_in self.old) name.now) }
    {
        let (number, _) = self.names.insert_full(name)?;
        Ok(number)
    }

    /// The names, in order.
    pub fn names(&self) -> &IndexSet<&'a [u8]>
        ensures { map (λ k. k.now) result.now.keys ≡ names_in self.now }
    {
        &self.names
    }
}
