//! Claims on a program, supported by the lemmas that a search found on the copies of its rules.
//!
//! Builds on `potential_search` (what was found), `refined_programs` (sections) and `claim_types`. Main guarantee: each
//! rule has a list of copies, and claims are made within memory, of what was found of each copy. No contract says that
//! a claim is accepted: each is judged before it is used.
#![tactic(auto)]

mod bounds;
mod claiming;
mod copies;
mod sides;
mod sums;

pub use claiming::claims_of;
pub use copies::{copies_in, own_copies, rules_in};
