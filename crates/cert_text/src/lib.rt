//! Prints and parses proof files: lemmas and gaps, one on a line, in one spelling (`docs/proof-format.md`).
//!
//! Builds on `cert_lexer` (lexer and grammar), `text_grammar` (the parser) and `cert_types` (lemmas and gaps). Main
//! guarantee: `text_of` is the text of a proof file, production by production, and `print` writes exactly that. `read`
//! gives a file exactly if the bytes are the text of that file and it keeps the limits and the references of a
//! program, and else exactly the first refusal.
#![tactic(auto)]

mod action;
mod draft;
mod error;
mod faults;
mod gaps;
mod law;
mod node_reading;
mod nodes;
mod numbers;
mod parsed_so_far;
mod phase;
mod printing;
mod reading;
mod taking;
mod text;
mod trees;

pub use cert_lexer::ProofKind;
pub use error::ProofTextError;
pub use law::{
    files_are_their_texts, proof_texts_are_read, worked_breaks_hold, worked_files_hold,
    worked_texts_hold,
};
pub use printing::print;
pub use reading::read;
