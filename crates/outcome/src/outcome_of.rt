//! The outcome of an analysis.

use crate::entry::{CostEntry, SizeEntry, TimeEntry};
use bound_expr::Bound;
use cert_types::{Gap, Proof};

/// The outcome of the analysis of a program: for each rule a time entry, an entry for each place of its target, and a
/// cost entry, `None` exactly where the rule has no cost; the bound on what all steps cost together, where each rule
/// with a cost has a bound on it and each other rule has a time; the lemmas that state the bounds; and the gaps.
#[derive(Debug, PartialEq, Eq, Drop)]
pub struct Outcome {
    pub times: Vec<TimeEntry>,
    pub sizes: Vec<Vec<SizeEntry>>,
    pub costs: Vec<Option<CostEntry>>,
    pub total: Option<Bound>,
    pub lemmas: Vec<Proof>,
    pub gaps: Vec<Gap>,
}
