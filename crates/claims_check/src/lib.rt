//! Whether the claims of a proof file are accepted.
//!
//! Builds on `claim_types`, `program_claims` (when a claim is accepted), `refined_programs` (sections),
//! `potential_types` (facts) and `signed_within` (the comparison of bounds). Main guarantee: `check_claims` gives what
//! all claims state where each is accepted, as `program_claims` defines it, and else the first claim that isn't, with
//! its reason.
#![tactic(auto)]

mod below;
mod charges;
mod checking;
mod evidence;
mod heads;
mod known;
mod law;
mod reason;
mod statement;
mod stating;
mod sums;
mod symbols;
mod tables;

pub use below::rules_below;
pub use checking::check_claims;
pub use evidence::Evidence;
pub use law::{copies_are_listed, evidence_is_by_sections};
pub use poly_terms::Memory;
pub use reason::{ClaimReason, ClaimsError, RefusedClaim};
pub use statement::Statement;
