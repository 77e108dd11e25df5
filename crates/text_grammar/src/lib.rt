//! One predictive parser for every grammar that can be parsed with one piece of lookahead (LL(1)).
//!
//! Builds on `text_core`. A text consists of a grammar as data, a fold over its events, and the faults of its tokens.
//! Main guarantee: if the computed test of the grammar is true, these make a reader that answers exactly the tree or
//! exactly the first fault (`specs/Texts`), and `read` implements this reader.
#![tactic(auto)]

mod byte_reading;
mod byte_text;
mod bytes;
mod entry;
mod law;
mod leading;
mod numeral;
mod reading;
mod rules;
mod stack;
mod symbol;
mod tables;
mod text;
mod token;
mod token_stream;

pub use byte_reading::read_bytes;
pub use byte_text::{ByteText, Spelling};
pub use bytes::{
    BLANK, Bytes, DIGITS, LINE, LINE_BEGINS, LINE_FEED, LINE_READ, LINE_VALUE_LIMIT, MINUS, MORE,
    NATURAL, NATURAL_BEGINS, NATURAL_READ, NUMBER, ONE, POSITIVE, SIGNED, SIGNED_BEGINS,
    SIGNED_READ, VALUE, VALUE_BEGINS, VALUE_READ, VALUES, ZERO, class_of,
};
pub use law::{lawful_texts_are_read, worked_grammars_hold};
pub use numeral::{NumberContext, Numeral};
pub use reading::read;
pub use symbol::{Item, Symbol};
pub use tables::Tables;
pub use text::{Text, Tokens};
pub use token::{Fault, Refusal, Token};
pub use token_stream::{Lexeme, Lexer, OneMode, TokenStream};
