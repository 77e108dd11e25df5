//! The entries of times, of costs and of sizes.

use crate::unbounded_side::UnboundedSide;
use bound_expr::Bound;
use cert_types::{LimitHit, ResultVariable};

/// A bound, with the number of the lemma that states it; lemma 0 is the virtual entry's.
#[derive(Debug, PartialEq, Eq, Drop)]
pub struct Stored {
    pub bound: Bound,
    pub lemma: u32,
}

/// The runtime bound of a rule, or why none is known.
#[derive(Debug, PartialEq, Eq, Drop)]
pub enum TimeEntry {
    Known(Stored),
    /// No affine function ranks the rule on all rational points of the rows, as the gap of this number, from 1, shows.
    Gap { gap: u32 },
    /// A linear program exceeded a limit.
    OutOfLimits(LimitHit),
    /// The bound has this many nodes.
    Large { nodes: u64 },
}

/// The bound on what all steps by a rule cost together, or why none is known.
#[derive(Debug, PartialEq, Eq, Drop)]
pub enum CostEntry {
    Known(Stored),
    /// No affine function bounds the cost of one step on this side.
    UnboundedSide(UnboundedSide),
    /// A linear program exceeded a limit.
    OutOfLimits(LimitHit),
    /// This size, which the bound of one step reads, is missing.
    Missing(ResultVariable),
    /// The time of this rule, which is needed, is missing.
    Untimed { rule: u32 },
    /// The bound has this many nodes.
    Large { nodes: u64 },
}

/// The size bound of a place after a rule, or why none is known.
#[derive(Debug, PartialEq, Eq, Drop)]
pub enum SizeEntry {
    Known(Stored),
    /// The place of a member is unbounded.
    UnboundedSide(UnboundedSide),
    /// A linear program of a member's place exceeded a limit.
    OutOfLimits(LimitHit),
    /// This size, which is needed from outside, is missing.
    Missing(ResultVariable),
    /// A polynomial side bound of this member reads a member.
    Nonlinear(ResultVariable),
    /// The time of this rule, which is needed, is missing.
    Untimed { rule: u32 },
    /// The bound has this many nodes.
    Large { nodes: u64 },
}
