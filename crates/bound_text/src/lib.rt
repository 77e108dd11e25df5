//! Prints and parses bounds, in one spelling: `read` reads back what `print` writes, within its limits, and refuses
//! every other spelling. A `Reader` takes one piece after the other, for texts that contain a bound among other things.
//!
//! Builds on `bound_expr` (bounds) and `text_core` (readers). Main guarantee: `text_of` is the text of a bound; `print`
//! gives exactly that text, and `read` the bound of a text or its first fault.
#![tactic(auto)]

mod brackets;
mod error;
mod fault;
mod joining;
mod kinds;
mod law;
mod lexer;
mod measured;
mod piece;
mod printing;
mod reading;
mod size;
mod state;
mod steps;
mod taking;

pub use error::BoundTextError;
pub use fault::Fault;
pub use law::{inner_bounds_are_read, limits_of_texts_are_met};
pub use piece::Piece;
pub use printing::{print, write};
pub use reading::{one_bound, read, states_are_read, texts_have_no_fault};
pub use state::Reader;
