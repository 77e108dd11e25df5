//! Reads a proof file of the third form: its parts one after the other, the lemmas over the program that its section
//! spells.
//!
//! Builds on `proof_parts` (the cut), `section_text`, `cert_text` and `potential_text` (the texts of the parts) and
//! `refinement_check` (sections). Main guarantee: `read_refined` gives exactly the file that bytes spell, with an
//! accepted section where it has one, or exactly the refusal of the first part that is refused, with its position in
//! the file; and bytes have one such outcome (`refined_texts_are_decided`).
#![tactic(auto)]

mod error;
mod law;
mod reading;
mod section;

pub use cert_lexer::ProofKind;
pub use error::{RefinedTextError, SectionRefusal};
pub use law::{
    files_read_are_within_limits, refined_texts_are_decided, sections_read_are_accepted,
    worked_outcomes_hold,
};
pub use reading::read_refined;
