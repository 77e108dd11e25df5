//! The nodes that bound costs, with their facts.

ghost use Rattle.std.specs.Prelude.{◌≡◌, ◌∷◌, [], IfOk};
ghost use Rattle.bound_expr.specs.Views.{bound_of};
ghost use Rattle.model.specs.Bounds.{Constant};
ghost use Rattle.cert_types.specs.Views.{cost_by_of};
ghost use Rattle.cert_types.specs.cert_rules.Nodes.{EmptyCost, NeverCost, NoProof};
ghost use Rattle.bound_fixpoint.specs.Keys.{time_key};
ghost use Rattle.bound_fixpoint.specs.Needs.{uses_for};
ghost use Rattle.size_bounds.specs.Lemmas.{uses_of_proofs};
ghost use Rattle.size_bounds.specs.Tables.{number_at};
ghost use Rattle.cost_bounds.specs.CostAnswers.{IsFound};

use crate::answer::CostAnswer;
use bound_expr::Bound;
use cert_types::{CostBy, CostNode, Fact, Proof, ResultVariable};
use model::Memory;
use size_bounds::{Table, uses_of_premises};
use std::alloc::Global;
use std::slice::from_ref;

/// The node that bounds the cost of a rule with these uses, and its fact.
///
/// # Errors
///
/// `Memory` where an allocation fails.
pub(crate) fn found(
    alloc: Global,
    rule: u32,
    by: CostBy,
    uses: Vec<Proof>,
    bound: Bound,
) -> Result<CostAnswer, Memory>
    ensures { IfOk result (λ a. IsFound rule (cost_by_of by) (uses_of_proofs uses.items) (bound_of bound) a) }
{
    let node = CostNode { rule, by, uses };
    Ok(CostAnswer::Found {
        node: Proof::Cost(Box::new(alloc, node)?),
        fact: Fact::Cost { rule, bound },
    })
}

/// The cost 0 of a rule whose cost rows have no point, as these multipliers show.
///
/// # Errors
///
/// `Memory` where an allocation fails.
pub(crate) fn empty_cost(
    alloc: Global,
    rule: u32,
    multipliers: &[u64],
) -> Result<CostAnswer, Memory>
    ensures { IfOk result (λ a. IsFound rule (EmptyCost multipliers.now) NoProof (Constant 0) a) }
{
    let mut copies = Vec::new(alloc);
    copies.extend_from_slice(multipliers)?;
    found(
        alloc,
        rule,
        CostBy::Empty(copies),
        Vec::new(alloc),
        Bound::Const(0),
    )
}

/// The cost 0 of a rule whose time is 0, which the node cites.
///
/// # Errors
///
/// `Memory` where an allocation fails.
pub(crate) fn never_cost(alloc: Global, rule: u32, t: &Table) -> Result<CostAnswer, Memory>
    ensures { IfOk result (λ a. IsFound rule NeverCost (uses_for (number_at t.now) (time_key rule ∷ [])) (Constant 0) a) }
{
    let time = ResultVariable { rule, place: 0 };
    let uses = uses_of_premises(alloc, t, from_ref(&time))?;
    found(alloc, rule, CostBy::Never, uses, Bound::Const(0))
}
