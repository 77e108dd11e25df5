//! Looks up distinct names by position.

ghost use Rattle.std.specs.Prelude.{◌≡◌, ◌<◌, length, map, IfOk, MatchOption, IsFalse, IsTrue};
ghost use Rattle.text_core.specs.Names.{name_of, AreDistinct, is_among, position_of};
ghost use Rattle.text_core.specs.NameIndex.{names_in};

use crate::name::Name;
use indexmap::IndexSet;
use model::Memory;
use std::alloc::Global;

/// Distinct names, each found by its bytes in time nearly independent of their number.
#[derive(Drop)]
pub struct NameIndex<'a> {
    names: IndexSet<&'a [u8]>,
}

impl<'a> NameIndex<'a> {
    /// The index of these names.
    ///
    /// # Errors
    ///
    /// `Memory` if an allocation fails.
    pub fn new(alloc: Global, names: &'a [Name]) -> Result<NameIndex<'a>, Memory>
        requires { AreDistinct (map name_of names.now) }
        ensures { IfOk result (λ listed. names_in listed ≡ map name_of names.now) }
    {
        let mut set = IndexSet::new(alloc);
        for name in names {
            set.insert(name.bytes.as_slice())?;
        }
        Ok(NameIndex { names: set })
    }

    /// The position of a name in the index, counted from 0.
    pub fn position(&self, name: &[u8]) -> Option<usize>
        ensures { MatchOption result (IsFalse (is_among name.now (names_in self.now)))
            (λ i. (i ≡ position_of name.now (names_in self.now)) × IsTrue (is_among name.now (names_in self.now))) }
    {
        self.names.get_index_of(&name)
    }

    /// The position of a name in the index, or the number of names if it isn't in it.
    pub fn position_or_count(&self, name: &[u8]) -> usize
        ensures { result ≡ position_of name.now (names_in self.now) }
    {
        match self.position(name) {
            Some(position) => position,
            None => self.names.len(),
        }
    }
}
