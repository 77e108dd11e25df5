//! Run files as a type.

use its_model::Step;

/// The start values of a run, one for each place of the start symbol, and its steps in order.
#[derive(Debug, PartialEq, Eq, Drop)]
pub struct RunFile {
    pub start: Vec<i128>,
    pub steps: Vec<Step>,
}
