//! Prints the checker's answers on proof files of the third form: the facts at symbols and what the claims of an
//! accepted file state, and why a section, a lemma about potentials or a claim isn't accepted.
//!
//! Builds on `symbol_facts`, `signed_text` (bounds), `refinement_check`, `potential_types` and `claims_check` (why
//! parts aren't accepted, and what claims state). Main guarantee: each function writes exactly the text that `specs/`
//! defines for it.
#![tactic(auto)]

mod law;
mod lemmas;
mod sections;
mod statements;
mod symbols;
mod terms;

pub use law::worked_answers_hold;
pub use lemmas::{claim_text, lemma_text};
pub use sections::{names_text, section_text};
pub use statements::statements_text;
