//! The facts about rules that never run.

ghost use Rattle.std.specs.Prelude.{◌≡◌, ◌≤◌, ◌∷◌, [], ◌↔◌, true, IsTrue, MatchOption, MatchResult};
ghost use Rattle.std.specs.List.{range_with_len};
ghost use Rattle.bound_expr.specs.Views.{bound_of};
ghost use Rattle.its_model.specs.Views.{program_of};
ghost use Rattle.model.specs.Facts.{Time};
ghost use Rattle.model.specs.Paths.{target_of as target_of_rule};
ghost use Rattle.cert_context.specs.NodeAnswers.{States};
ghost use Rattle.cert_types.specs.cert_rules.Checks.{never_checks};
ghost use Rattle.cert_context.specs.NodeAnswers.{Refuses};
ghost use Rattle.check_file.specs.Singles.{IsNoSingle};
ghost use Rattle.cert_types.specs.Views.{fact_of, facts_of};
ghost use Rattle.cert_types.specs.cert_rules.AcceptsPlain.{IsOneTime, never_facts as never_facts_of, places_at};

use bound_expr::Bound;
use cert_context::{NodeFault, zero_sizes};
use cert_types::{Fact, Reason, target_of};
use gap_checks::arity_at;
use its_model::Program;
use size_nodes::is_zero;
use std::alloc::Global;

/// The only fact of a list, if it has just one.
pub(crate) fn only(facts: &[Fact]) -> Option<&Fact>
    ensures { MatchOption result (IsNoSingle (facts_of facts.now)) (λ f. facts_of facts.now ≡ fact_of f.now ∷ []) }
{
    match facts.split_first() {
        Some((fact, others)) => if others.is_empty() { Some(fact) } else { None },
        None => None,
    }
}

// The only fact of a list, if it has just one, a time of a rule above 0.
fn only_time(facts: &[Fact]) -> Option<(u32, &Bound)>
    ensures { MatchOption result (¬ (IsOneTime (facts_of facts.now)))
        (λ t. (facts_of facts.now ≡ Time t.0 (bound_of t.1.now) ∷ []) × (1 ≤ t.0)) }
{
    let Some(fact) = only(facts) else {
        return None;
    };
    match fact {
        Fact::Time { rule, bound } => if *rule == 0 {
            None
        } else {
            Some((*rule, bound))
        },
        Fact::Size { .. } => None,
        Fact::Cost { .. } => None,
    }
}

// The number of places of the target of a rule, or 0 if there is no such rule.
fn target_places(p: &Program, rule: u32) -> u32
    ensures { range_with_len 1 result ≡ places_at (program_of p.now) (target_of_rule (program_of p.now) rule) }
{
    match target_of(p, rule) {
        Some(symbol) => arity_at(p, symbol),
        None => 0,
    }
}

/// The facts of a node on a rule that never runs, given the facts of its premise.
///
/// # Errors
///
/// `Refused` with the first reason why the node isn't accepted; `Memory` where an allocation fails.
pub(crate) fn never_facts(
    alloc: Global,
    p: &Program,
    facts: &[Fact],
) -> Result<Vec<Fact>, NodeFault>
    ensures { MatchResult result
        (λ stated. States (never_checks (facts_of facts.now))
        (never_facts_of (program_of p.now) (facts_of facts.now)) stated)
        (λ fault. Refuses (never_checks (facts_of facts.now)) fault) }
{
    let Some((rule, bound)) = only_time(facts) else {
        return Err(NodeFault::Refused(Reason::Shape));
    };
    if !is_zero(bound) {
        return Err(NodeFault::Refused(Reason::Zero));
    }
    Ok(zero_sizes(alloc, rule, target_places(p, rule))?)
}
