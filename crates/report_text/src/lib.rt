//! Prints the report of an analysis.
//!
//! Builds on `outcome` (reports) and `bound_text` (bounds). Main guarantee: `print` gives exactly the text of the
//! outcome's report, and the text of a printable report on a valid program determines the report.
#![tactic(auto)]

mod bounds;
mod gaps;
mod law;
mod limits;
mod numbers;
mod reasons;
mod report;

pub use law::{texts_are_worked_out, texts_state_one_report};
pub use reasons::{push_why_cost, push_why_time};
pub use report::print;
