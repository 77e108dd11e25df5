//! Reads programs of the while language.
//!
//! Builds on `text_grammar` (the parser), `expr_reader` (expressions) and `while_tree` (statements). Main guarantee:
//! `read_while` gives exactly the program that a text spells, or exactly its first fault.
#![tactic(auto)]

mod block;
mod course;
mod draft;
mod error;
mod faults;
mod forms;
mod grammar;
mod grammar_state;
mod kind;
mod lexer;
mod names;
mod phase;
mod piece;
mod reading;
mod sorts;
mod text;

pub use error::WhileError;
pub use kind::{Kind, WhileKind};
pub use reading::read_while;
pub use while_tree::{Stmt, Whole};
