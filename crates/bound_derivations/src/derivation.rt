//! Derivations: nodes with their keys and bounds.

use bound_expr::Bound;
use cert_types::{EmptyNode, Member, RankNode, ResultVariable};

/// A derivation node without its premises; its list of uses is ignored.
#[derive(Debug, PartialEq, Eq, Drop)]
pub enum Node {
    /// A rule whose rows no point meets.
    Empty(EmptyNode),
    /// A rule whose source is not reached.
    Unreached { rule: u32 },
    /// The sizes after a rule that never runs.
    Never { rule: u32 },
    /// A time by a ranking function.
    Rank(RankNode),
    /// The size at a place that does not loop.
    Spread(Member),
    /// The sizes at the places of a loop.
    Cycle(Vec<Member>),
}

/// A derivation: for these keys, which all get one bound, a node; the keys of its premises (the bounds that it needs),
/// in the order in which it needs them; and the bound. A key is a rule and a place: the time is at place 0, sizes are
/// at places from 1, and rule 0 is the virtual entry.
#[derive(Debug, PartialEq, Eq, Drop)]
pub struct Derivation {
    pub keys: Vec<ResultVariable>,
    pub node: Node,
    pub premises: Vec<ResultVariable>,
    pub bound: Bound,
}
