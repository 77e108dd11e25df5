//! Proof files of what the analysis of a program with its facts prints: the section of the facts, the lemmas and gaps
//! of the analysis of the program that it spells, and claims on all bounds.
//!
//! Builds on `location_facts` and `facts_section` (the section), `time_bounds` (the analyses) and `check_refined` (the
//! checker). Main guarantee: the file that `facts_proof` gives is accepted for the program, its section is that of the
//! facts, and its claims state each bound of the report of the analysis with facts (`ProvesFacts`); `proof_text` gives
//! its text. No clause says that there is a file.
#![tactic(auto)]

mod claims;
mod law;
mod lemmas;
mod plain_part;
mod proving;
mod text_of_proof;

pub use law::statements_are_worked_out;
pub use proving::{FactsProof, analysis_proof, facts_proof};
pub use text_of_proof::proof_text;
