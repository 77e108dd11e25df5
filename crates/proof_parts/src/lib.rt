//! Cuts a proof file of the third form into its parts: the section, the plain part, signed lemmas and claims.
//!
//! Builds on `text_core`. Main guarantee: `cut` gives the parts that `specs/Parts` defines, each with the position of
//! its first byte in the file, or the first byte at which the file's first line differs; and each file has one
//! cut.
#![tactic(auto)]

mod cutting;
mod head;
mod kind;
mod law;
mod lines;
mod parts;

pub use cutting::cut;
pub use head::is_third_form;
pub use law::{cuts_are_worked_out, parts_are_unique};
pub use parts::{Part, Parts};
