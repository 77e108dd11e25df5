//! How expressions and guards are written: the pieces of their texts, their trees, the terms of `model` that these
//! denote, and the state of parsing after each piece.
//!
//! Builds on `its_model`. Main guarantee: small texts have the values worked out by hand (`worked_values_hold`), and
//! limiting exponents changes no refusal (`limited_alike`). The lemmas of `proofs` show that each expression and each
//! guard can be read, that the result denotes what is written, and that each prefix can be completed.
#![tactic(auto)]

mod law;

pub use law::{limited_alike, worked_values_hold};
