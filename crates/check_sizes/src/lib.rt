//! Checks nodes on sizes and on costs.
//!
//! Builds on `size_nodes` (the checks shared with the search) and `cert_context`. Main guarantee: `spread_facts`,
//! `cycle_facts` and `cost_facts` accept exactly where all checks of the node pass, as `cert_rules` defines them, and
//! then give the facts that the node states; else they name the first check that fails. No linear program is solved.
#![tactic(auto)]

mod cost_rows;
mod costing;
mod looping;
mod members;
mod side_bound_costs;
mod side_bound_numbers;
mod side_bound_rows;
mod side_bounds;
mod spreading;
mod stating;

pub use costing::cost_facts;
pub use looping::cycle_facts;
pub use spreading::spread_facts;
