//! The report of `best`: for each rule, each cost, all steps, and each place after each rule a bound over the start
//! values, or that none is known.
//!
//! Builds on `claims_check` (what accepted proof files state), `outcome` and `report_text` (analyses), `signed_facts`,
//! `signed_values` and `signed_text` (bounds). Main guarantee: `report_lines` gives a line for each subject of the
//! program, whose bound holds on every run, and a bound wherever the analysis or a statement has one, which isn't greater
//! than either at any list of start values at which bounds are compared, within the limits of bounds; a total that neither
//! has is the sum of what the rules spend by the lines; and `print` gives exactly the report's text.
#![tactic(auto)]

mod analysis_bounds;
mod bounded;
mod choosing;
mod law;
mod line;
mod lines;
mod printing;
mod spending;
mod stated_bounds;
mod subject;
mod subjects;
mod totals;

pub use bounded::is_bounded;
pub use law::worked_texts_hold;
pub use line::Line;
pub use lines::report_lines;
pub use printing::print;
pub use subject::Subject;
