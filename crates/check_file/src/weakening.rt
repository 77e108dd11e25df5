//! Checks weaker bounds.

ghost use Rattle.std.specs.Prelude.{◌≡◌, ◌∷◌, [], MatchResult, true};
ghost use Rattle.bound_expr.specs.Views.{bound_of};
ghost use Rattle.its_model.specs.Views.{program_of};
ghost use Rattle.cert_context.specs.NodeAnswers.{States};
ghost use Rattle.cert_types.specs.cert_rules.Checks.{weaken_checks};
ghost use Rattle.cert_context.specs.NodeAnswers.{Refuses};
ghost use Rattle.cert_context.specs.Statements.{AreBased};
ghost use Rattle.cert_types.specs.Views.{fact_of, facts_of};
ghost use Rattle.cert_types.specs.cert_rules.AcceptsPlain.{weakened};
ghost use Rattle.cert_types.specs.cert_program.Setting.{setting_of};

use crate::unused::only;
use crate::writable::is_writable;
use bound_expr::Bound;
use bound_table::below;
use cert_context::{NodeFault, bound_at, one};
use cert_types::{Fact, Reason};
use gap_checks::arity_at;
use its_model::Program;
use std::alloc::Global;

// A fact with another bound.
fn with_bound(fact: &Fact, bound: Bound) -> Fact
    ensures { fact_of result ∷ [] ≡ weakened (fact_of fact.now ∷ []) (bound_of bound) }
{
    match fact {
        Fact::Time { rule, .. } => Fact::Time { rule: *rule, bound },
        Fact::Size { rule, place, .. } => Fact::Size {
            rule: *rule,
            place: *place,
            bound,
        },
        Fact::Cost { rule, .. } => Fact::Cost { rule: *rule, bound },
    }
}

/// The fact of a node with a weaker bound, given the facts of its premise.
///
/// # Errors
///
/// `Refused` with the first reason why the node isn't accepted; `Memory` where an allocation fails.
pub(crate) fn weaker_facts(
    alloc: Global,
    p: &Program,
    facts: &[Fact],
    bound: &Bound,
) -> Result<Vec<Fact>, NodeFault>
    requires based { AreBased (facts_of facts.now) }
    ensures { MatchResult result
        (λ stated. States (weaken_checks (setting_of (program_of p.now)) (facts_of facts.now) (bound_of bound.now))
        (weakened (facts_of facts.now) (bound_of bound.now)) stated)
        (λ fault. Refuses
        (weaken_checks (setting_of (program_of p.now)) (facts_of facts.now) (bound_of bound.now)) fault) }
{
    if !is_writable(bound, arity_at(p, p.start)) {
        return Err(NodeFault::Refused(Reason::Shape));
    }
    let Some(fact) = only(facts) else {
        return Err(NodeFault::Refused(Reason::Weaker));
    };
    if !below(bound_at(fact), bound) {
        return Err(NodeFault::Refused(Reason::Weaker));
    }
    let weaker = bound.copied(alloc)?;
    Ok(one(alloc, with_bound(fact, weaker))?)
}
