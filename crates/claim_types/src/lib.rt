//! Claims on a program as the code holds them. Contracts see each as the plain data of `program_claims`.
//!
//! Builds on `program_claims` (what claims are) and `signed_bounds`. Main guarantee: each kind of claim is seen as the
//! claim of that kind, with the same numbers and the same bound.
#![tactic(auto)]

mod claim;

pub use claim::{Claim, Support};
