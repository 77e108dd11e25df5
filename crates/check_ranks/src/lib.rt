//! Checks nodes with a ranking function.
//!
//! Builds on `farkas_cert` (certificates) and `cert_context`. Main guarantee: `rank_facts` accepts exactly where all
//! checks of the node pass, as `cert_rules` defines them, and then gives the fact that the node states; else it names
//! the first check that fails. No linear program is solved.
#![tactic(auto)]

mod forms;
mod goals;
mod losing;
mod rank_shape;
mod ranking;
mod reading;
mod symbols;

pub use ranking::rank_facts;
