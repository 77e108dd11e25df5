//! The checker of proof files. It solves no linear program and trusts none that was solved: it checks each node of each
//! derivation, and each gap, by itself.
//!
//! Builds on `check_ranks`, `check_sizes`, `gap_checks` and `cert_context`. Main guarantee: `check` accepts exactly
//! where every lemma and every gap of a file is accepted, as `cert_rules` defines it, and then every fact of the file
//! holds on all runs, whoever made the file; else it names the first node or gap that isn't accepted, and why.
#![tactic(auto)]

mod by_key;
mod children;
mod emptiness;
mod error;
mod files;
mod gaps;
mod judging;
mod lemmas;
mod numbering;
mod refusal;
mod unreached;
mod unused;
mod weakening;
mod writable;

pub use error::CheckError;
pub use files::{accepted_files_hold, check, files_are_answered};
pub use numbering::can_be_numbered;
