//! The answer on a size, apart from the lemmas of its premises.

use bound_expr::Bound;
use cert_types::ResultVariable;

/// The size that a node gives, or why there is none.
#[derive(Debug, PartialEq, Eq, Drop)]
pub enum Sizing {
    /// The keys of the bounds that the node needs, in the order in which it needs them, and the size. A key is a rule
    /// and a place, where the time is at place 0.
    Found {
        premises: Vec<ResultVariable>,
        bound: Bound,
    },
    /// This size, which is needed from outside, is missing.
    Missing(ResultVariable),
    /// A polynomial side bound of this member reads a member.
    Nonlinear(ResultVariable),
    /// The time of this rule, which is needed, is missing.
    Untimed {
        rule: u32,
    },
    /// The composed bound has this many nodes.
    Large {
        nodes: u64,
    },
}
