//! Prints proof files of the third form.
//!
//! Builds on `section_writer`, `cert_text` and `potential_writer`, which print the parts. Main guarantee: `print_refined`
//! gives exactly the text of a file: the first line and then the texts of the parts, in the order in which they are
//! read. Whoever hands a printed file on reads it back and has it checked first.
#![tactic(auto)]

mod law;
mod printing;

pub use law::worked_texts_hold;
pub use printing::print_refined;
