//! The size of a place that doesn't loop.

ghost use Rattle.std.specs.Prelude.{◌≡◌, [], ◌∷◌, map, IfOk};
ghost use Rattle.model.specs.Facts.{Size};
ghost use Rattle.model.specs.Programs.{Program};
ghost use Rattle.bound_expr.specs.Views.{bound_of};
ghost use Rattle.cert_types.specs.cert_rules.Nodes.{Spread};
ghost use Rattle.cert_types.specs.cert_program.Setting.{setting_of};
ghost use Rattle.cert_types.specs.Views.{facts_of, member_of, proof_of, result_variable_of};
ghost use Rattle.bound_fixpoint.specs.Needs.{uses_for};
ghost use Rattle.size_bounds.specs.Tables.{table_of, number_at};
ghost use Rattle.size_nodes.specs.Members.{IsMemberOfProgram};
ghost use Rattle.size_bounds.specs.SizeAnswers.{IsSpreadAnswer};

use crate::answer::SizeAnswer;
use crate::table::Table;
use crate::uses::uses_of_premises;
use bound_expr::{Bound, Memory};
use cert_types::{Fact, Member, Proof, ResultVariable, SpreadNode, copied_local};
use guard_prep::RuleRows;
use its_graph::Graph;
use size_nodes::{Sizing, sized_spread};
use std::alloc::Global;

/// The size of a place after a rule whose side bounds read no place of its own loop: the maximum, over the rules that
/// can come before, of both side bounds at the sizes after that rule. `Found` has a node that states it and cites the
/// lemmas of the sizes that are read; `Missing` the first of these sizes that isn't known, in the order of the rules
/// before, up before low, places ascending; `Large` the number of nodes of the composed bound. `Nonlinear` and
/// `Untimed` never come.
///
/// # Errors
///
/// `Memory` where an allocation fails.
pub fn spread(
    alloc: Global,
    g: &Graph,
    prepared_rules: &[RuleRows],
    t: &Table,
    m: &Member,
) -> Result<SizeAnswer, Memory>
    requires { (p : Program) × IsMemberOfProgram p g.now prepared_rules.now (member_of m.now) }
    ensures { IfOk result (λ a. (p : Program) → IsMemberOfProgram p g.now prepared_rules.now (member_of m.now)
        → IsSpreadAnswer (setting_of p) (table_of t.now) (number_at t.now) (member_of m.now) a) }
{
    let sizing = sized_spread(alloc, g, prepared_rules, t, m)?;
    match sizing {
        Sizing::Found { premises, bound } => Ok(SizeAnswer::Found {
            node: spread_node(alloc, t, m, &premises)?,
            facts: size_fact(alloc, m.result_variable, bound)?,
        }),
        Sizing::Missing(result_variable) => Ok(SizeAnswer::Missing(result_variable)),
        Sizing::Nonlinear(result_variable) => Ok(SizeAnswer::Nonlinear(result_variable)),
        Sizing::Untimed { rule } => Ok(SizeAnswer::Untimed { rule }),
        Sizing::Large { nodes } => Ok(SizeAnswer::Large { nodes }),
    }
}

// The node of a place that cites the lemmas of these bounds.
fn spread_node(
    alloc: Global,
    t: &Table,
    m: &Member,
    premises: &[ResultVariable],
) -> Result<Proof, Memory>
    ensures { IfOk result (λ node. proof_of node
        ≡ Spread (member_of m.now) (uses_for (number_at t.now) (map result_variable_of premises.now))) }
{
    let uses = uses_of_premises(alloc, t, premises)?;
    let local = copied_local(alloc, &m.local)?;
    let node = SpreadNode {
        result_variable: m.result_variable,
        local,
        uses,
    };
    Ok(Proof::Spread(Box::new(alloc, node)?))
}

// The fact that this is the size of a result variable.
fn size_fact(
    alloc: Global,
    result_variable: ResultVariable,
    bound: Bound,
) -> Result<Vec<Fact>, Memory>
    ensures { IfOk result (λ facts. facts_of facts.items ≡ Size result_variable.rule result_variable.place (bound_of bound) ∷ []) }
{
    let fact = Fact::Size {
        rule: result_variable.rule,
        place: result_variable.place,
        bound,
    };
    let mut facts = Vec::new(alloc);
    facts.push(fact)?;
    Ok(facts)
}
