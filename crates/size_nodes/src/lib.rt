//! Checks nodes on sizes, apart from the shapes and the local bounds of their members: a size of one place that doesn't
//! loop (`sized_spread`), and the sizes of the members of a loop (`sized_cycle`).
//!
//! Builds on `cert_types`, `bound_table` and `its_graph`. Main guarantee: for any table of known bounds, each call
//! accepts the node, with the keys of its premises and the bound that it states, or gives the first check of the node
//! that fails, both as `cert_rules` defines them. The search for sizes and the checker share this code.
#![tactic(auto)]

mod flow;
mod growth;
mod loop_bound;
mod members;
mod missing;
mod nonlinear;
mod premises;
mod rule_flows;
mod rules;
mod sized;
mod sizing;
mod stating;
mod transitions;
mod updates;

pub use growth::is_zero;
pub use missing::first_missing;
pub use sized::{sized_cycle, sized_spread};
pub use sizing::Sizing;
pub use stating::size_facts;
