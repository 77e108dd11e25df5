//! Reads the section of a proof file: the copies of a program's symbols, and the cases by which its rules lead from copy
//! to copy.
//!
//! Builds on `text_grammar` (the parser) and `refined_programs` (sections). Main guarantee: `read_section` gives exactly
//! the section that a text spells, or exactly its first fault.
#![tactic(auto)]

mod action;
mod classes;
mod draft;
mod error;
mod faults;
mod grammar;
mod kind;
mod law;
mod lexer;
mod names;
mod piece;
mod reading;
mod text;

pub use error::SectionTextError;
pub use faults::{BRANCH_LIMIT, COPY_LIMIT, LEVEL_LIMIT};
pub use kind::SectionKind;
pub use law::worked_sections_hold;
pub use reading::read_section;
