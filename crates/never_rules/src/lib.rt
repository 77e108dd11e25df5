//! Which rules facts say never occur, as flags that are made in one pass over the facts.
//!
//! Builds on `potential_types` (facts). Main guarantee: the flag at the number of a rule says exactly whether some fact
//! says that the rule never occurs, as `potential_nodes` defines it (`never_flags`).
#![tactic(auto)]

mod flags;

pub use flags::{mark_never, never_flags};
pub use poly_terms::Memory;
