//! The answers on a size.

use cert_types::{Fact, Proof, ResultVariable};

/// The answer on a size: the node that states it, or why there is none.
#[derive(Debug, PartialEq, Eq, Drop)]
pub enum SizeAnswer {
    /// This node states it, with its premises; and these are its facts.
    Found { node: Proof, facts: Vec<Fact> },
    /// This size, which is needed from outside, is missing.
    Missing(ResultVariable),
    /// A polynomial side bound of this member reads a member.
    Nonlinear(ResultVariable),
    /// The time of this rule, which is needed, is missing.
    Untimed { rule: u32 },
    /// The composed bound has this many nodes.
    Large { nodes: u64 },
}
