//! The checker's verdict on a proof file of any form, with its text.
//!
//! Builds on `proof_forms` (what texts stand for), `check_text` (verdicts on files of the first and the second form),
//! `check_refined` (the check of files of the third form), `symbol_facts` (the facts at symbols by their sections) and
//! `claims_text` (their texts). Main guarantee: `verdict` says that the file is accepted, with the text of all that it
//! states, each of which holds on all runs of the program; or that it isn't, with the text of exactly the first refusal;
//! and each file has one verdict (`verdicts_are_one`).
#![tactic(auto)]

mod judging;
mod law;
mod refusals;

pub use check_text::Verdict;
pub use judging::verdict;
pub use law::{verdicts_are_one, worked_verdicts_hold};
