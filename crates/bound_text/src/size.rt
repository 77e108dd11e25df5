//! The nodes and levels of the bound that has been read so far, against their limits.

ghost use Rattle.std.specs.Prelude.{◌≡◌, ◌≤◌, ◌^◌, ◌-◌, min, IsTrue, if◌then◌else◌};
ghost use Rattle.bound_text.specs.ParserStates as parser_states;
ghost use Rattle.bound_text.specs.ParserStates.{Outer, Inside, node_of_any as any_node, product_node as node_of_product};
ghost use Rattle.bound_text.specs.ParserStates.{product_node_round, bracket_nodes, inner_levels, nodes_of};
ghost use Rattle.bound_text.specs.Checks.{sized};
ghost use Rattle.bound_text.specs.Views.{parts_in, bracket_of, outer_in, state_of, is_settled, sum_here, product_here};
ghost use Rattle.bound_text.specs.Views.{item_here, IsRound, Obeys};

use crate::fault::Fault;
use crate::joining::{is_empty, makes_product};
use crate::measured::Measured;
use crate::state::{Bracket, Opened, Position, Reader};
use bound_expr::{DEPTH_LIMIT, NODE_LIMIT};

/// How many levels a bound may have.
const MAX_LEVELS: u64 = DEPTH_LIMIT as u64;

/// The counts around the innermost bound: the nodes, the levels above the bound, and whether the innermost bracket is
/// that of a sum as a factor.
#[derive(Clone, Copy)]
pub struct Round {
    pub nodes: u64,
    pub levels: u64,
    pub in_factor: bool,
}

// 1 if there are parts, else 0: the node that holds them.
fn node_of_any(parts: &Measured) -> u64
    ensures value { result ≡ any_node (parts_in parts.now) }
    ensures small { result ≤ 1 }
{
    if is_empty(parts) { 0 } else { 1 }
}

/// 1 if a sum with these terms counts as a node here, else 0: the node of a sum in brackets is counted with its
/// bracket.
pub(crate) fn node_of_sum(in_factor: bool, terms: &Measured) -> u64
    ensures value { result ≡ (if in_factor then 0 else any_node (parts_in terms.now)) }
    ensures small { result ≤ 1 }
{
    if in_factor { 0 } else { node_of_any(terms) }
}

// 1 if the factors are a product, else 0.
fn product_node(factors: &Measured) -> u64
    ensures value { result ≡ node_of_product (parts_in factors.now) }
    ensures small { result ≤ 1 }
{
    if makes_product(factors) { 1 } else { 0 }
}

impl Opened {
    /// The counts around a bound in this bracket, where `round` has the counts around the bracket.
    pub(crate) fn count_in(&self, round: Round) -> Round
        ensures { (outer : Outer) → IsRound outer round → IsRound
            (Inside (bracket_of self.now.bracket) (parts_in self.now.terms) (parts_in self.now.factors) outer) result }
    {
        let sum = node_of_sum(round.in_factor, &self.terms);
        let product = self.product_node();
        let nodes = round
            .nodes
            .saturating_add(sum)
            .saturating_add(self.terms.nodes)
            .saturating_add(product)
            .saturating_add(self.factors.nodes);
        Round {
            nodes: nodes.saturating_add(self.bracket.nodes()),
            levels: round.levels.saturating_add(sum + product + 1),
            in_factor: matches!(self.bracket, Bracket::Factor),
        }
    }

    /// 1 if the bracket is in a product: after other factors, or that of a sum, which is always a factor; else 0.
    pub(crate) fn product_node(&self) -> u64
        ensures value { result ≡ product_node_round (bracket_of self.now.bracket) (parts_in self.now.factors) }
        ensures small { result ≤ 1 }
    {
        match &self.bracket {
            Bracket::Factor => 1,
            _ => node_of_any(&self.factors),
        }
    }
}

impl Bracket {
    // The nodes of the node that the bracket belongs to.
    fn nodes(&self) -> u64
        ensures { result ≡ min (bracket_nodes (bracket_of self.now)) (2 ^ 64 - 1) }
    {
        match self {
            Bracket::Arguments(arguments) => arguments.nodes.saturating_add(1),
            _ => 1,
        }
    }
}

#[tactic(auto, using(crate::proofs::SizeLaws::here))]
impl Reader {
    /// 1 if the innermost bound is a sum, as far as it has been read, and isn't in the brackets of a factor, which
    /// count it; else 0.
    pub(crate) fn sum_node(&self, round: Round) -> u64
        ensures value { (outer : Outer) → IsRound outer round → result ≡ sum_here self.now.position outer
            (parts_in self.now.terms) }
        ensures small { result ≤ 1 }
    {
        if round.in_factor {
            return 0;
        }
        match self.position {
            Position::BlankRead | Position::PlusRead => 1,
            _ => node_of_any(&self.terms),
        }
    }

    /// 1 if the innermost term is a product, as far as it has been read, else 0.
    pub(crate) fn product_node(&self) -> u64
        ensures value { result ≡ product_here self.now.position (parts_in self.now.factors) }
        ensures small { result ≤ 1 }
    {
        match self.position {
            Position::ItemRead | Position::BlankRead | Position::PlusRead | Position::CommaRead =>
                product_node(&self.factors),
            _ => node_of_any(&self.factors),
        }
    }

    // 1 if an item has begun that is not yet a factor, else 0.
    fn item_node(&self) -> u64
        ensures value { result ≡ item_here self.now.position }
        ensures small { result ≤ 1 }
    {
        match self.position {
            Position::Number(_)
            | Position::Name(_)
            | Position::RunCaret(_)
            | Position::PowerCaret(_) => 1,
            _ => 0,
        }
    }

    // The levels of the innermost bound and of those above it, exact up to one over the limit.
    fn levels(&self, round: Round) -> u64
        requires { IsRound (outer_in self.now.outer) round }
        ensures { min result 201 ≡ min (inner_levels (state_of self.now)) 201 }
    {
        let above = round.levels.saturating_add(self.sum_node(round));
        let terms = above.saturating_add(u64::from(self.terms.depth));
        let factors = u64::from(self.factors.depth).max(self.item_node());
        terms.max(
            above
                .saturating_add(self.product_node())
                .saturating_add(factors),
        )
    }

    /// The nodes of the tree so far.
    pub(crate) fn nodes(&self, round: Round) -> u64
        requires { IsRound (outer_in self.now.outer) round }
        ensures { result ≡ min (nodes_of (state_of self.now)) (2 ^ 64 - 1) }
    {
        let sum = round
            .nodes
            .saturating_add(self.sum_node(round))
            .saturating_add(self.terms.nodes);
        let product = sum
            .saturating_add(self.product_node())
            .saturating_add(self.factors.nodes);
        product.saturating_add(self.item_node())
    }

    /// Whether what has been read is within the limits. `TooDeep` comes exactly if it has more than 200 levels, and
    /// else `TooLarge` exactly if it has more than 4,096 nodes.
    pub(crate) fn check_size(&self) -> Result<(), Fault>
        requires { IsTrue (is_settled self.now) }
        ensures { Obeys (sized (state_of self.now)) self.now result }
    {
        let round = self.outer.round();
        if self.levels(round) > MAX_LEVELS {
            return Err(Fault::TooDeep);
        }
        if self.nodes(round) > NODE_LIMIT {
            return Err(Fault::TooLarge);
        }
        Ok(())
    }
}
