//! The result of an analysis as Rust types: for each rule, each cost and each place a bound, or the reason why there is
//! none.
//!
//! Builds on `cert_types` and `bound_expr`. Main guarantee: `report_of` reads an outcome as a report in plain data,
//! which the contracts above speak of.
#![tactic(auto)]

mod bounded;
mod entry;
mod outcome_of;
mod unbounded_side;

ghost use Rattle.outcome.specs.WorkedReports.{EntriesAreFound, ReportsHold, ReasonsHold};
ghost use Rattle.outcome.specs.WorkedCosts.{SpendingsAreWorkedOut, ReportsAreBounded, ReportsFit, CostReportsHold};

pub use entry::{CostEntry, SizeEntry, Stored, TimeEntry};
pub use outcome_of::Outcome;
pub use unbounded_side::UnboundedSide;

/// Worked values of the entries of lists, and of reports on small programs without and with costs: which are reports on
/// them, which hold, and that none holds with a bound that is too small or of another rule or place.
pub fn reports_are_as_worked_out()
    ensures entries { EntriesAreFound }
    ensures reports { ReportsHold }
    ensures reasons { ReasonsHold }
    ensures spendings { SpendingsAreWorkedOut }
    ensures bounded { ReportsAreBounded }
    ensures fitting { ReportsFit }
    ensures costs { CostReportsHold }
{}
