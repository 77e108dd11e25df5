//! Accepts or refuses sections of a program with certificates. The program that an accepted section spells simulates
//! the program.
//!
//! Builds on `section_decide`. Definitions are in `specs/`. Main guarantee: `accept` is Ok exactly if all checks of the
//! section pass, and else reports the first fault. Then the section is certified: bounds of the program that it spells
//! carry over, and facts of copies hold at their symbols; the spelled program is valid if `has_distinct_names` answers
//! yes (`accepted_sections_keep_bounds`).
#![tactic(auto)]

mod accepting;
mod certificates;
mod due;
mod ends;
mod fault;
mod laws;
mod limits;
mod names;
mod shape;

pub use accepting::accept;
pub use fault::{AcceptError, SectionFault};
pub use laws::accepted_sections_keep_bounds;
pub use names::has_distinct_names;
