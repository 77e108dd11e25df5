//! Prints the section of a proof file: the copies of a program's symbols, and the cases by which its rules lead from copy
//! to copy.
//!
//! Builds on `section_text` (the grammar of sections and their reader). Main guarantee: `print_section` gives the text of
//! a section, and the text of each section within the limits is read as that section.
#![tactic(auto)]

mod cases;
mod law;
mod numbers;
mod printing;

pub use law::{texts_are_read_back, worked_values_hold};
pub use printing::print_section;
