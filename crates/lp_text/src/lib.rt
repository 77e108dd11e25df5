//! Linear programs as files: texts in bytes, in one spelling.
//!
//! Builds on `text_grammar` (the parser) and `lp_builder` (entries in order). Main guarantee: `read_lp` gives exactly the
//! problem of the linear program whose text the bytes are, within the limits, or exactly the first refusal.
#![tactic(auto)]

mod error;
mod grammar;
mod kind;
mod law;
mod problem;
mod reading;
mod section;
mod text;
mod written;

pub use error::LpTextError;
pub use law::{problems_are_meant, texts_are_decided, worked_texts_hold};
pub use reading::{read_lp, read_written};
pub use simplex_core::Problem;
pub use written::{WrittenLp, WrittenRow};
