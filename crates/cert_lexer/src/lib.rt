//! The lexer and the grammar of proof files, and the parser of the bounds inside them.
//!
//! Builds on `text_grammar` and on `bound_text`, whose parser of bounds runs inside that of proof files. Main
//! guarantee: `ProofLexer` cuts bytes into the pieces of `specs/Lexing`, and `read_bound` gives exactly the bound that
//! pieces spell, or its first refusal.
#![tactic(auto)]

mod bound_pieces;
mod bound_reading;
mod classes;
mod follower;
mod grammar;
mod inner;
mod kind;
mod law;
mod leads;
mod levels;
mod lexer;
mod marks;
mod modes;
mod names;
mod outline;
mod packed;
mod piece;
mod words;

pub use bound_reading::{BOUND_LEVELS, read_bound};
pub use classes::class_of;
pub use grammar::{CLASSES, PROOF_GRAMMAR, ROUNDS};
pub use inner::{BoundRead, Inner};
pub use kind::ProofKind;
pub use law::{bounds_are_answered, bounds_are_spelled, worked_bounds_hold};
pub use lexer::ProofLexer;
pub use packed::{Packed, PackedRest};
pub use piece::{Behind, Mode, Piece, Sign, Word};
