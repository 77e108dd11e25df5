//! Builds the entries of costs, with the lemmas of those that have a bound.

ghost use Rattle.std.specs.Prelude.{◌≡◌, ◌+◌, ◌<◌, ◌≤◌, ◌^◌, length, map, IfOk};
ghost use Rattle.bound_expr.specs.Views.{bound_of};
ghost use Rattle.model.specs.Bounds as plain;
ghost use Rattle.model.specs.Facts.{Cost};
ghost use Rattle.cert_types.specs.Views.{fact_of, proof_of};
ghost use Rattle.size_bounds.specs.Tables.{bounds_in, number_at};
ghost use Rattle.time_bounds.specs.CostEntries.{AddsCost, AreCostEntries};
ghost use Rattle.time_bounds.specs.Questions.{BelongsTogether, program_in};

use crate::context::Context;
use bound_expr::Bound;
use cert_types::{Fact, Proof};
use cost_bounds::{CostAnswer, cost};
use cost_nodes::has_cost;
use model::Memory;
use outcome::{CostEntry, Stored};
use size_bounds::Table;

/// The entry of each rule's cost, none for a rule without a cost; and lemmas.
#[derive(Drop)]
pub(crate) struct CostsAndLemmas {
    pub costs: Vec<Option<CostEntry>>,
    pub lemmas: Vec<Proof>,
}

/// For each rule with a cost the bound on it over the final table, or why there is none. The lemmas of the bounds are
/// appended to the given ones, in the order of rules.
pub(crate) fn cost_entries(
    cx: &Context,
    table: &Table,
    lemmas: Vec<Proof>,
) -> Result<CostsAndLemmas, Memory>
    requires ready { BelongsTogether cx.now }
    requires few { length lemmas.items ≤ 36000 }
    ensures one_each { IfOk result (λ r. length r.costs.items ≡ length (program_in cx.now).rules) }
    ensures entries { IfOk result (λ r. AreCostEntries (program_in cx.now) cx.now.pivots (bounds_in table.now)
        (number_at table.now) (map proof_of lemmas.items) r.costs.items (map proof_of r.lemmas.items)) }
{
    let mut costs = Vec::new(cx.alloc);
    let mut lemmas = lemmas;
    for i in 0..cx.program.rules.len() {
        costs.push(cost_entry(cx, table, i as u32 + 1, &mut lemmas)?)?;
    }
    Ok(CostsAndLemmas { costs, lemmas })
}

// The entry of a rule's cost; where it has a bound, its lemma is pushed.
fn cost_entry(
    cx: &Context,
    table: &Table,
    rule: u32,
    lemmas: &mut Vec<Proof>,
) -> Result<Option<CostEntry>, Memory>
    requires ready { BelongsTogether cx.now }
    requires few { length lemmas.old.items + 1 < 2 ^ 32 }
    ensures adds { IfOk result (λ entry. AddsCost (program_in cx.now) cx.now.pivots (bounds_in table.now)
        (number_at table.now) rule entry (map proof_of lemmas.old.items) (map proof_of lemmas.new.items)) }
    ensures few { IfOk result (λ entry. length lemmas.new.items ≤ length lemmas.old.items + 1) }
{
    if !has_cost(cx.program, rule) {
        return Ok(None);
    }
    let answer = cost(cx.alloc, cx.program, &cx.graph, table, rule, cx.pivots)?;
    match answer {
        CostAnswer::Found { node, fact } => {
            lemmas.push(node)?;
            Ok(Some(CostEntry::Known(Stored {
                bound: bound_of_cost(rule, fact),
                lemma: lemmas.len() as u32,
            })))
        }
        CostAnswer::UnboundedSide(side) => Ok(Some(CostEntry::UnboundedSide(side))),
        CostAnswer::OutOfLimits(limit_hit) => Ok(Some(CostEntry::OutOfLimits(limit_hit))),
        CostAnswer::Missing(result_variable) => Ok(Some(CostEntry::Missing(result_variable))),
        CostAnswer::Untimed { rule } => Ok(Some(CostEntry::Untimed { rule })),
        CostAnswer::Large { nodes } => Ok(Some(CostEntry::Large { nodes })),
    }
}

// The bound of a fact on the cost of a rule.
fn bound_of_cost(rule: u32, fact: Fact) -> Bound
    requires { (b : plain.Bound) × (fact_of fact ≡ Cost rule b) }
    ensures { fact_of fact ≡ Cost rule (bound_of result) }
{
    match fact {
        Fact::Cost { rule: _, bound } => bound,
        Fact::Time { .. } | Fact::Size { .. } => unreachable!(),
    }
}
