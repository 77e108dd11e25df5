//! What every reader of a text needs: bytes, names, digits, pieces (tokens without positions), and the first fault of a
//! text.
//!
//! Builds on `model`. A reader is described by its parser states, by the trees that a state can complete, and by the
//! faults that a state shows. Main guarantee: a reader that satisfies the four laws of `specs/Laws` answers exactly the
//! tree or exactly the first fault.
#![tactic(auto)]

mod bytes;
mod law;
mod listed;
mod name;

pub use bytes::{begins_with, digits_len, has_leading_zero, is_white_space, value_up_to};
pub use law::{worked_lines_hold, worked_readers_hold, worked_values_hold};
pub use listed::NameIndex;
pub use name::{Name, begins_name, continues_name, name_len};
