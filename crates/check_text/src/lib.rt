//! Prints the verdict of the checker on a proof file.
//!
//! Builds on `check_file` (the checker) and `cert_text`. Main guarantee: `verdict_on` says that the file is accepted,
//! with the text of all of its facts and gaps, and then every fact holds on all runs of the program; or that it isn't,
//! with the text of the first refusal.
#![tactic(auto)]

mod facts;
mod faults;
mod law;
mod numbers;
mod refusals;
mod verdict;

pub use faults::{gap_text, node_text};
pub use law::worked_texts_hold;
pub use numbers::{push_number, push_place};
pub use refusals::refusal_text;
pub use verdict::{Verdict, verdict_on};
