//! Worked values, as laws.

ghost use Rattle.bound_derivations.specs.Worked.{TablesAreReadByKey, ValuesArePutByKey, DerivedBoundsHaveTheirDerivations};

/// Worked values of reading small tables by key.
pub fn tables_are_read_by_key()
    ensures { TablesAreReadByKey }
{}

/// Worked values of writing a value at a key of small lists.
pub fn values_are_put_by_key()
    ensures { ValuesArePutByKey }
{}

/// A table that is the index of one derivation has its bound, with the number 1, only at its key.
pub fn derived_bounds_have_their_derivations()
    ensures { DerivedBoundsHaveTheirDerivations }
{}
