//! Prints the facts that are kept at a program's locations, and the report of the program strengthened by them.
//!
//! Builds on `location_facts`, `time_bounds` and `report_text`. Main guarantee: `analyse` finds the facts that are kept
//! within the pivots, which hold on every run, and the report of the program strengthened by them, of which each bound
//! holds on every run of the program itself (`IsFoundWithFacts`); there is at most one such list and one such report
//! (`reports_with_facts_are_one`); and `print` gives exactly the text of both (`text_with_facts`).
#![tactic(auto)]

mod analysis;
mod law;
mod lines;

pub use analysis::{WithFacts, analyse};
pub use law::{fact_texts_are_worked_out, reports_with_facts_are_one};
pub use lines::{location_lines, print};
