//! The program to which the members of nodes belong.

use guard_prep::RuleRows;
use its_graph::Graph;

/// A program as the checks of nodes need it: its graph, with the rules that can come before each rule, and the rows of
/// each rule, in order.
#[derive(Clone, Copy)]
pub(crate) struct Transitions<'a> {
    pub graph: &'a Graph,
    pub rows: &'a [RuleRows],
}
