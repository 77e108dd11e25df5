//! Lassos as a type.

use its_model::Step;

/// The values that a run starts with, one for each place of the start symbol; the steps of the stem, in order, which
/// lead to the turn; and the steps of the turn, in order.
#[derive(Debug, PartialEq, Eq, Drop)]
pub struct Lasso {
    pub start: Vec<i128>,
    pub stem: Vec<Step>,
    pub turn: Vec<Step>,
}
