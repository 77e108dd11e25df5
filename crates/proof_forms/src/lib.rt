//! Proof files of all forms: one type of what their texts stand for, and one reader of them.
//!
//! Builds on `cert_text` (files of the first and the second form) and `refined_text` (files of the third form). Main
//! guarantee: `read_proof` gives exactly what bytes stand for, a file of one of the forms, or one of the third form whose
//! section isn't accepted, or exactly the first refusal; and bytes stand for one thing at most, have one first refusal at
//! most, and not both (`proof_texts_are_decided`).
#![tactic(auto)]

mod law;
mod reading;
mod text;

pub use law::{proof_texts_are_decided, worked_forms_hold};
pub use reading::read_proof;
pub use text::ProofText;
