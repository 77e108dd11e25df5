//! Bounds on the costs of rules, apart from their certificates: the rows over which a cost is bounded (`cost_rows`), the
//! sizes that a side bound of it needs (`needed_sizes`), and the bound on the cost of all steps that it composes
//! (`composed_cost`).
//!
//! Builds on `size_nodes`, `bound_table` and `its_graph`. Main guarantee: each call gives what `cert_rules` defines for
//! a node on a cost. The search for costs and the checker share this code.
#![tactic(auto)]

mod composing;
mod costing;
mod prepared_cost;
mod sizes;

pub use composing::composed_cost;
pub use costing::{cost_rows, has_cost};
pub use prepared_cost::PreparedCost;
pub use sizes::needed_sizes;
