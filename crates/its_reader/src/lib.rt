//! The parser of program texts in KoAT's ITS format: from bytes to a program whose symbols and variables are numbered.
//!
//! Builds on `its_text` (what a text spells, and its faults) and `expr_reader` (expressions and guards). Tokens are
//! read one after the other with one token of lookahead: a `ParserState` is the parser's state, a `Draft` has the
//! parts read so far, and together they represent the written state of `its_text`. Main guarantee: `read` gives the
//! verdict on a text: the one program that it spells within the limits, which is then valid; or, if there is none, its
//! first fault.
#![tactic(auto)]

mod break_kind_of;
mod comment;
mod cost;
mod draft;
mod error;
mod expression;
mod fault;
mod finish;
mod left;
mod lexer;
mod lookahead;
mod lookahead_right;
mod lookahead_tail;
mod mode;
mod parser_state;
mod part_end;
mod piece;
mod reading;
mod right;
mod room;
mod rules;
mod sections;
mod symbols;
mod tail;

pub use error::{LimitKind, ReadError};
pub use reading::read;
