//! The derivations found so far: a list, and a table by key as its index.
//!
//! Builds on `bound_fixpoint` (what a list of derivations means) and `size_bounds` (tables). Main guarantee: the table
//! has exactly the bounds and the lemma numbers that `bound_fixpoint` reads off the list, and the lemmas are built
//! from the list in one pass.
#![tactic(auto)]

mod by_key;
mod citing;
mod derivation;
mod derived;
mod starting;
mod worked;
mod writing;

pub use by_key::is_known;
pub use citing::lemmas;
pub use derivation::{Derivation, Node};
pub use derived::DerivedBounds;
pub use starting::derived_bounds_at_start;
pub use worked::{
    derived_bounds_have_their_derivations, tables_are_read_by_key, values_are_put_by_key,
};
pub use writing::put_place;
