//! Facts over absolute start values as facts over the start values themselves, of the kinds that lemmas about
//! potentials state.
//!
//! Builds on `cert_types` (facts of plain proof files) and `potential_types` (facts about potentials). Main guarantee:
//! `signed_facts` gives, in order, the signed fact of each fact, as `potential_nodes` defines it.
#![tactic(auto)]

mod bounds;
mod facts;

pub use bounds::signed_bound;
pub use facts::signed_facts;
pub use poly_terms::Memory;
