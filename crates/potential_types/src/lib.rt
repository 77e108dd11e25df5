//! Lemmas about potentials as Rust types: nodes, the facts that they state, and why a lemma isn't accepted. Contracts
//! read each as the plain data of `potential_nodes`.
//!
//! Builds on `potential_nodes` (the definitions), `signed_bounds` and `poly_terms`. Main guarantee: copies have the
//! same plain form; and whether a lemma is within the limits, whether polynomials or charges are the same, and which
//! fact has a number is decided exactly as `potential_nodes` defines it.
#![tactic(auto)]

mod comparing;
mod copies;
mod facts;
mod limits;
mod lookup;
mod nodes;
mod reason;
mod summand;
mod tables;

pub use comparing::{one_poly, reads_below, same_charge, same_charges, same_polynomial};
pub use copies::{copied_bound, copied_certificate, copied_charges, copied_monomials, copied_poly};
pub use facts::{Charge, SignedFact};
pub use limits::is_within_limits;
pub use lookup::{is_never, numbered, peak_bound, size_bound, sum_of_form, time_bound};
pub use nodes::{
    Combination, CountedRule, FallNode, Payment, PeakNode, PhaseMove, PhasesNode, RowNode,
    SignedLemma, SignedNode, SizedNode,
};
pub use poly_terms::Memory;
pub use reason::Reason;
pub use summand::Summand;
pub use tables::{Move, PotentialTable, SymbolFunction};
