//! Computes sizes of places after rules: of a place that doesn't loop from the sizes before it, and of the members of a
//! loop from the sizes that enter it and the times of its rules.
//!
//! Builds on `size_nodes` (the checks of size nodes) and `bound_fixpoint`. Main guarantee: a node that is found is
//! accepted over the table and states the composed bound, and each other answer names the first check of the node that
//! fails, both as `cert_rules` defines them.
#![tactic(auto)]

mod answer;
mod copies;
mod laws;
mod looping;
mod spreading;
mod table;
mod uses;

pub use answer::SizeAnswer;
pub use copies::{copied_member, copied_members};
pub use laws::found_sizes_are_accepted;
pub use looping::cycle;
pub use outcome::Stored;
pub use spreading::spread;
pub use table::Table;
pub use uses::{uses_of_lemmas, uses_of_premises};
