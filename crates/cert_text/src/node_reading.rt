//! Builds a node from its parts.

ghost use Rattle.std.specs.Prelude.{◌≡◌, IfOk, map};
ghost use Rattle.cert_types.specs.Views.{cost_by_of, member_of, proof_of, uses_of};
ghost use Rattle.cert_types.specs.bound_expr.Views.{bound_of};
ghost use Rattle.cert_types.specs.cert_rules.Nodes.{CostBound, Cycle, Empty, Rank, Spread, Unreached};
ghost use Rattle.cert_text.specs.ParsedSoFar.{draft_of};
ghost use Rattle.cert_text.specs.Remembered.{first_or, no_member, node_in, rank_in};

use crate::action::Action;
use crate::draft::{Draft, in_32};
use bound_expr::Bound;
use cert_types::{
    CostNode, CycleNode, EmptyNode, LocalBound, Member, Proof, RankNode, ResultVariable, SideBound,
    SpreadNode, UnreachedNode,
};
use std::alloc::{AllocError, Global};

/// The node that was read, from the last number, its parts, and the node and the bound inside it.
///
/// # Errors
///
/// `AllocError` where an allocation fails.
pub fn node_from(
    alloc: Global,
    action: Action,
    number: u128,
    draft: Draft,
    child: Proof,
    bound: Bound,
) -> Result<Proof, AllocError>
    ensures { IfOk result (λ node.
        proof_of node ≡ node_in action number (draft_of draft) (proof_of child) (bound_of bound)) }
{
    match action {
        Action::CiteRead => Ok(Proof::Cite(in_32(number))),
        Action::EmptyRead => empty_from(alloc, draft),
        Action::UnreachedRead => unreached_from(alloc, draft),
        Action::NeverRead => Ok(Proof::Never(Box::new(alloc, child)?)),
        Action::RankRead => rank_from(alloc, draft),
        Action::SpreadRead => spread_from(alloc, draft),
        Action::CycleRead => cycle_from(alloc, draft),
        Action::WeakenRead => Ok(Proof::Weaken(Box::new(alloc, child)?, bound)),
        Action::CostRead => cost_from(alloc, draft),
        _ => Ok(Proof::Start),
    }
}

// The node of a rule whose rows no point meets.
fn empty_from(alloc: Global, draft: Draft) -> Result<Proof, AllocError>
    ensures { IfOk result (λ node. proof_of node ≡ Empty draft.rule draft.numbers.items) }
{
    let node = EmptyNode {
        rule: draft.rule,
        multipliers: draft.numbers,
    };
    Ok(Proof::Empty(Box::new(alloc, node)?))
}

// The node of a rule whose source is not reached.
fn unreached_from(alloc: Global, draft: Draft) -> Result<Proof, AllocError>
    ensures { IfOk result (λ node.
        proof_of node ≡ Unreached draft.rule (uses_of (map proof_of draft.uses.items))) }
{
    let node = UnreachedNode {
        rule: draft.rule,
        uses: draft.uses,
    };
    Ok(Proof::Unreached(Box::new(alloc, node)?))
}

// The node of a time by a ranking function.
fn rank_from(alloc: Global, draft: Draft) -> Result<Proof, AllocError>
    ensures { IfOk result (λ node.
        proof_of node ≡ Rank (rank_in (draft_of draft)) (uses_of (map proof_of draft.uses.items))) }
{
    let node = RankNode {
        rule: draft.rule,
        set: draft.set,
        den: draft.den,
        forms: draft.forms,
        moves: draft.moves,
        floor: draft.numbers,
        uses: draft.uses,
    };
    Ok(Proof::Rank(Box::new(alloc, node)?))
}

// The node of the size at a place that does not loop.
fn spread_from(alloc: Global, draft: Draft) -> Result<Proof, AllocError>
    ensures { IfOk result (λ node. proof_of node ≡ Spread (first_or no_member (map member_of draft.members.items))
        (uses_of (map proof_of draft.uses.items))) }
{
    let Member {
        result_variable,
        local,
    } = first_member(draft.members);
    let node = SpreadNode {
        result_variable,
        local,
        uses: draft.uses,
    };
    Ok(Proof::Spread(Box::new(alloc, node)?))
}

// The first of some members, or one without numbers if there are none.
fn first_member(members: Vec<Member>) -> Member
    ensures { member_of result ≡ first_or no_member (map member_of members.items) }
{
    if members.is_empty() {
        let local = LocalBound {
            up: SideBound::Poly,
            low: SideBound::Poly,
        };
        return Member {
            result_variable: ResultVariable { rule: 0, place: 0 },
            local,
        };
    }
    let mut members = members;
    members.remove(0)
}

// The node of the sizes at the places of a loop.
fn cycle_from(alloc: Global, draft: Draft) -> Result<Proof, AllocError>
    ensures { IfOk result (λ node. proof_of node ≡ Cycle (map member_of draft.members.items)
        (uses_of (map proof_of draft.uses.items))) }
{
    let node = CycleNode {
        members: draft.members,
        uses: draft.uses,
    };
    Ok(Proof::Cycle(Box::new(alloc, node)?))
}

// The node on the cost of a rule.
fn cost_from(alloc: Global, draft: Draft) -> Result<Proof, AllocError>
    ensures { IfOk result (λ node. proof_of node ≡ CostBound (record { rule = draft.rule; by = cost_by_of draft.by })
        (uses_of (map proof_of draft.uses.items))) }
{
    let node = CostNode {
        rule: draft.rule,
        by: draft.by,
        uses: draft.uses,
    };
    Ok(Proof::Cost(Box::new(alloc, node)?))
}
