//! Checks gaps (certificates that no ranking function exists), and finds the first fault of one that doesn't hold.
//!
//! Builds on `farkas_cert`, `guard_prep` and `cert_types`. Main guarantee: `gap_fault` gives exactly the first fault in
//! the order that `cert_rules` defines, or none where the gap holds; and a gap that holds excludes every affine
//! function with coefficient 0 at its shut places that ranks its rule over its set on all rational points of the rows
//! (`gaps_exclude_functions`).
#![tactic(auto)]

mod balancing;
mod gap_faults;
mod gap_points;
mod gap_shape;
mod parts;
mod program_rules;
mod rule_numbers;
mod shut_places;
mod touching;

pub use gap_faults::{gap_fault, gaps_exclude_functions};
pub use rule_numbers::{are_rules, arity_at, ascends, is_rule};
