//! Answers to which function ranks a rule of a set.

use cert_types::{Gap, LimitHit, RankNode};

/// Which function ranks a rule of a set.
#[derive(Debug, PartialEq, Eq, Drop)]
pub enum RankAnswer {
    /// This function does; it is given as a node whose premises are still missing.
    Ranked(RankNode),
    /// No function with coefficient 0 at every shut place ranks the rule. The gap consists of the dual that excludes
    /// every such function, and of a point of each rule of the set.
    NoRank(Gap),
    /// A linear program exceeded a limit.
    OutOfLimits(LimitHit),
}
