//! The answers on a cost.

use cert_types::{Fact, LimitHit, Proof, ResultVariable};
use outcome::UnboundedSide;

/// The answer on the cost of a rule: the node that bounds it, or why there is none.
#[derive(Debug, PartialEq, Eq, Drop)]
pub enum CostAnswer {
    /// This node bounds it, with its premises; and this is its fact.
    Found { node: Proof, fact: Fact },
    /// No affine function of the arguments bounds the cost of one step on this side.
    UnboundedSide(UnboundedSide),
    /// A linear program exceeded a limit.
    OutOfLimits(LimitHit),
    /// This size, which the bound of one step reads, is missing.
    Missing(ResultVariable),
    /// The rule, whose time is needed, has none.
    Untimed { rule: u32 },
    /// The composed bound has this many nodes.
    Large { nodes: u64 },
}
