//! A rule with a cost, as the composition of its bound takes it.

use guard_prep::RuleRows;
use its_graph::Graph;

/// A rule with a cost: the graph of its program, its number, and the prepared rows of its cost rule.
#[derive(Drop)]
pub struct PreparedCost<'a> {
    pub graph: &'a Graph,
    pub rule: u32,
    pub rows: &'a RuleRows,
}
