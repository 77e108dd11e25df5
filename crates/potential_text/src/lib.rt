//! Reads the lines of a proof file that state lemmas about potentials, and those that claim something of a program.
//!
//! Builds on `text_grammar` (the parser), `potential_types` (lemmas) and `claim_types` (claims). Main guarantee:
//! `read_signed` and `read_claims` give exactly the lemmas and the claims that a text spells, or exactly its first fault.
#![tactic(auto)]

mod action;
mod bounds;
mod certificates;
mod classes;
mod draft;
mod error;
mod faults;
mod grammar;
mod items;
mod kind;
mod law;
mod lexer;
mod lines;
mod names;
mod numbers;
mod piece;
mod polynomials;
mod reading;
mod text;
mod words;

pub use error::PotentialTextError;
pub use faults::LINE_LIMIT;
pub use kind::{LineKind, Part};
pub use law::worked_lines_hold;
pub use reading::{read_claims, read_signed};
