//! The size of the members of a loop.

ghost use Rattle.std.specs.Prelude.{◌≡◌, ◌++◌, map, IfOk};
ghost use Rattle.model.specs.Programs.{Program};
ghost use Rattle.bound_expr.specs.Views.{bound_of};
ghost use Rattle.cert_types.specs.cert_rules.Nodes.{Cycle};
ghost use Rattle.cert_types.specs.cert_rules.AcceptsSizes.{cycle_facts};
ghost use Rattle.cert_types.specs.cert_program.Setting.{setting_of};
ghost use Rattle.cert_types.specs.Views.{facts_of, member_of, proof_of, result_variable_of};
ghost use Rattle.bound_fixpoint.specs.Needs.{uses_for};
ghost use Rattle.size_bounds.specs.Tables.{table_of, number_at};
ghost use Rattle.size_nodes.specs.Members.{AreMembersOfProgram};
ghost use Rattle.size_bounds.specs.SizeAnswers.{IsCycleAnswer};

use crate::answer::SizeAnswer;
use crate::copies::copied_members;
use crate::table::Table;
use crate::uses::uses_of_premises;
use bound_expr::{Bound, Memory};
use cert_types::{CycleNode, Member, Proof, ResultVariable};
use guard_prep::RuleRows;
use its_graph::Graph;
use size_nodes::{Sizing, size_facts, sized_cycle};
use std::alloc::Global;

/// The size of all members of a loop of places: the sizes that enter the loop from outside, plus the additions of its
/// rules, each times its time, all times the factor of each rule that multiplies to the power of its time. `Found` has
/// a node that states it for each member and cites the lemmas of the sizes and times that are needed. If there is
/// none, the first of these reasons is given: `Missing`, a size from outside that isn't known, in the order of
/// members, then of the rules before, up before low, places ascending; `Nonlinear`, a member of which a polynomial
/// side bound reads a member; `Untimed`, the least rule that multiplies or adds and has no time; and `Large`, the
/// number of nodes of the composed bound.
///
/// # Errors
///
/// `Memory` where an allocation fails.
pub fn cycle(
    alloc: Global,
    g: &Graph,
    prepared_rules: &[RuleRows],
    t: &Table,
    members: &[Member],
) -> Result<SizeAnswer, Memory>
    requires { (p : Program) × AreMembersOfProgram p g.now prepared_rules.now (map member_of members.now) }
    ensures { IfOk result (λ a. (p : Program) → AreMembersOfProgram p g.now prepared_rules.now (map member_of members.now)
        → IsCycleAnswer (setting_of p) (table_of t.now) (number_at t.now) (map member_of members.now) a) }
{
    let sizing = sized_cycle(alloc, g, prepared_rules, t, members)?;
    match sizing {
        Sizing::Found { premises, bound } => Ok(SizeAnswer::Found {
            node: cycle_node(alloc, t, members, &premises)?,
            facts: size_facts(alloc, members, &bound)?,
        }),
        Sizing::Missing(result_variable) => Ok(SizeAnswer::Missing(result_variable)),
        Sizing::Nonlinear(result_variable) => Ok(SizeAnswer::Nonlinear(result_variable)),
        Sizing::Untimed { rule } => Ok(SizeAnswer::Untimed { rule }),
        Sizing::Large { nodes } => Ok(SizeAnswer::Large { nodes }),
    }
}

// The node of these members that cites the lemmas of these bounds.
fn cycle_node(
    alloc: Global,
    t: &Table,
    members: &[Member],
    premises: &[ResultVariable],
) -> Result<Proof, Memory>
    ensures { IfOk result (λ node. proof_of node
        ≡ Cycle (map member_of members.now) (uses_for (number_at t.now) (map result_variable_of premises.now))) }
{
    let uses = uses_of_premises(alloc, t, premises)?;
    let members = copied_members(alloc, members)?;
    Ok(Proof::Cycle(Box::new(alloc, CycleNode { members, uses })?))
}
