//! The printer of program texts: from a program to its canonical text; and the generated programs.
//!
//! Builds on `its_text` and `its_model`. Main guarantee: `print` gives the canonical text, which spells the program if
//! any text does, and is read back as that program if it is within the limits (`spelled_programs_are_spellable` states
//! which programs have a text). `generate` gives the n-th generated program; its canonical text is within the limits,
//! also when it is read from a file (`generated_programs_are_spelled`).
#![tactic(auto)]

mod bytes;
mod expression;
mod generator;
mod law;
mod names;
mod printing;
mod rule;

pub use generator::generate;
pub use law::{generated_programs_are_spelled, spelled_programs_are_spellable, worked_values_hold};
pub use poly_terms::Memory;
pub use printing::print;
