//! Derivation trees.

ghost use Rattle.std.specs.Prelude.{◌≡◌};
ghost use Rattle.cert_program.specs.cert_rules.Nodes.{Cite};
ghost use Rattle.cert_types.specs.Views.{proof_of};

use crate::rank::RankNode;
use crate::side_bound::{LocalBound, Member, ResultVariable, SideBound};
use bound_expr::Bound;

/// A derivation of facts, as a tree: each node contains the derivations of its premises.
#[derive(Debug, PartialEq, Eq, Drop)]
#[cycle(proof)]
pub enum Proof {
    /// An earlier lemma, from 1.
    Cite(u32),
    /// The virtual entry occurs once, and its sizes are the start values.
    Start,
    /// A rule whose rows no point meets.
    Empty(Box<EmptyNode>),
    /// A rule whose source is not reached.
    Unreached(Box<UnreachedNode>),
    /// The sizes after a rule that never runs.
    Never(Box<Proof>),
    /// A time by a ranking function.
    Rank(Box<RankNode>),
    /// The size at a place that does not loop.
    Spread(Box<SpreadNode>),
    /// The sizes at the places of a loop.
    Cycle(Box<CycleNode>),
    /// A fact with a bound that is not below its own.
    Weaken(Box<Proof>, Bound),
    /// A bound on what all steps by a rule cost together.
    Cost(Box<CostNode>),
}

/// A rule whose rows, each times its multiplier, add up to -1.
#[derive(Debug, PartialEq, Eq, Drop)]
pub struct EmptyNode {
    pub rule: u32,
    pub multipliers: Vec<u64>,
}

/// A rule whose source is not reached without rules that the premises show to be dead.
#[derive(Debug, PartialEq, Eq, Drop)]
#[cycle(proof)]
pub struct UnreachedNode {
    pub rule: u32,
    pub uses: Vec<Proof>,
}

/// A result variable with its local bound, and the premises for the sizes before it.
#[derive(Debug, PartialEq, Eq, Drop)]
#[cycle(proof)]
pub struct SpreadNode {
    pub result_variable: ResultVariable,
    pub local: LocalBound,
    pub uses: Vec<Proof>,
}

/// The result variables of a loop with their local bounds, and the premises for the sizes that enter it and for its
/// times.
#[derive(Debug, PartialEq, Eq, Drop)]
#[cycle(proof)]
pub struct CycleNode {
    pub members: Vec<Member>,
    pub uses: Vec<Proof>,
}

/// A rule with a cost, how the cost is shown, and the premises for its time and the sizes before it.
#[derive(Debug, PartialEq, Eq, Drop)]
#[cycle(proof)]
pub struct CostNode {
    pub rule: u32,
    pub by: CostBy,
    pub uses: Vec<Proof>,
}

/// How the cost of a rule is shown. The cost rows are those of its guard and of the atom that its cost is at least 0.
#[derive(Debug, PartialEq, Eq, Drop)]
pub enum CostBy {
    /// The cost rows, each times its multiplier, add up to -1, so that no step costs anything.
    Empty(Vec<u64>),
    /// The rule never runs.
    Never,
    /// The cost is at most a side bound over the cost rows.
    SideBound(SideBound),
}

/// A node that cites an earlier lemma.
pub fn cite(lemma: u32) -> Proof
    ensures { proof_of result ≡ Cite lemma }
{
    Proof::Cite(lemma)
}
