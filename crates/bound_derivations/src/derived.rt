//! The list of derivations, with a table by key as its index.

ghost use Rattle.std.specs.Prelude.{◌≡◌, ◌+◌, ◌-◌, ◌<◌, ◌^◌, ◌∷◌, ◌++◌, [], length, map, OnOk};
ghost use Rattle.bound_expr.specs.Views.{bound_of};
ghost use Rattle.model.specs.Programs.{Program};
ghost use Rattle.cert_types.specs.Views.{result_variable_of};
ghost use Rattle.bound_derivations.specs.ByKey.{IsWritten};
ghost use Rattle.bound_derivations.specs.Books.{AreDerivedBounds, AreOpen};
ghost use Rattle.bound_derivations.specs.Views.{derivation_of, derivations_of};

use crate::derivation::Derivation;
use crate::writing::put_each;
use model::Memory;
use size_bounds::Table;
use std::alloc::Global;

/// The derivations so far, in order, and a table by key that is their index: lemmas are numbered from 1 in the order
/// of derivations.
#[derive(Debug, Drop)]
pub struct DerivedBounds {
    pub table: Table,
    pub derivations: Vec<Derivation>,
}

impl DerivedBounds {
    /// Appends a derivation, and writes a copy of its bound at each of its keys, with its number.
    ///
    /// # Errors
    ///
    /// `Memory` where an allocation fails.
    pub fn take(&mut self, alloc: Global, derivation: Derivation) -> Result<(), Memory>
        requires few { length self.old.derivations.items + 1 < 2 ^ 32 - 1 }
        ensures derivations { OnOk result (derivations_of self.new.derivations.items
            ≡ derivations_of self.old.derivations.items ++ derivation_of derivation ∷ []) }
        ensures written { OnOk result (IsWritten self.old.table (map result_variable_of derivation.keys.items) (bound_of derivation.bound)
            (length self.old.derivations.items + 1) self.new.table) }
        ensures derived { OnOk result ((p : Program) → AreDerivedBounds p self.old.table self.old.derivations.items
            → AreOpen p (derivations_of self.old.derivations.items) (map result_variable_of derivation.keys.items)
            → AreDerivedBounds p self.new.table self.new.derivations.items) }
    {
        let number = self.next_number();
        put_each(
            alloc,
            &mut self.table,
            &derivation.keys,
            &derivation.bound,
            number,
        )?;
        self.derivations.push(derivation)?;
        Ok(())
    }

    // The number of the lemma of the next derivation.
    fn next_number(&self) -> u32
        requires few { length self.now.derivations.items + 1 < 2 ^ 32 - 1 }
        ensures { result ≡ length self.now.derivations.items + 1 }
    {
        self.derivations.len() as u32 + 1
    }
}
