//! The context in which nodes are checked.

ghost use Rattle.std.specs.Prelude.{◌≡◌, map, IfOk, MatchOption};
ghost use Rattle.farkas_cert.specs.Sizes.{AreSmall};
ghost use Rattle.its_model.specs.Valid.{IsValid};
ghost use Rattle.its_model.specs.Views.{program_of};
ghost use Rattle.model.specs.Costs.{HasCost};
ghost use Rattle.poly_terms.specs.Views.{form_of};
ghost use Rattle.cost_nodes.specs.CostRules.{IsPreparedCostRule};
ghost use Rattle.cert_context.specs.CheckContexts.{IsCheckContext, program, setting};
ghost use Rattle.cert_context.specs.SuitedRows.{HasPlaces, IsPreparedRuleOf, SuitsSideBounds, SuitsGoals};
ghost use Rattle.cert_types.specs.Composing.{AreRowsOf};
ghost use Rattle.cert_types.specs.cert_rules.AcceptsPlain.{IsRule};

use crate::costs::all_costs;
use gap_checks::is_rule;
use guard_prep::{RuleRows, rows};
use its_graph::Graph;
use its_model::Program;
use model::Memory;
use std::alloc::Global;

/// A program, with its graph, the rows of each of its rules, in order, and those of the cost rule of each rule that has
/// a cost.
#[derive(Drop)]
pub struct CheckContext<'a> {
    pub program: &'a Program,
    pub prepared_rules: Vec<RuleRows>,
    pub costs: Vec<Option<RuleRows>>,
    pub graph: Graph,
}

/// Prepares the context for a program.
pub fn check_context<'a>(alloc: Global, p: &'a Program) -> Result<CheckContext<'a>, Memory>
    requires { IsValid (program_of p.now) }
    ensures right { IfOk result (λ g. IsCheckContext g) }
    ensures same { IfOk result (λ g. program g ≡ program_of p.now) }
{
    let prepared_rules = all_rows(alloc, p)?;
    let costs = all_costs(alloc, p)?;
    let graph = Graph::new(alloc, p)?;
    Ok(CheckContext {
        program: p,
        prepared_rules,
        costs,
        graph,
    })
}

// The rows of each rule, in order.
fn all_rows(alloc: Global, p: &Program) -> Result<Vec<RuleRows>, Memory>
    requires { IsValid (program_of p.now) }
    ensures { IfOk result (λ prepared_rules. AreRowsOf prepared_rules.items (program_of p.now)) }
{
    let mut prepared_rules = Vec::new(alloc);
    for rule in &p.rules {
        prepared_rules.push(rows(alloc, rule)?)?;
    }
    Ok(prepared_rules)
}

/// The prepared rows of the rule with this number.
pub fn prepared_rule<'g>(context: &'g CheckContext, rule: u32) -> &'g RuleRows
    requires context { IsCheckContext context.now }
    requires rule { IsRule (program context.now) rule }
    ensures rows { map form_of result.now.rows.items ≡ (setting context.now).rows rule }
    ensures new_values { map form_of result.now.new_values.items ≡ (setting context.now).new_values rule }
    ensures small { AreSmall (map form_of result.now.rows.items) }
    ensures suits { SuitsGoals (program context.now) rule result.now }
    ensures side_bounds { SuitsSideBounds result.now }
    ensures own { IsPreparedRuleOf (setting context.now) rule result.now }
    ensures places { HasPlaces (program context.now) rule result.now }
{
    &context.prepared_rules[rule as usize - 1]
}

/// The prepared rows of the cost rule of a rule, if there is such a rule and it has a cost.
pub fn prepared_cost_rule<'g>(context: &'g CheckContext, rule: u32) -> Option<&'g RuleRows>
    requires { IsCheckContext context.now }
    ensures { MatchOption result (¬ (HasCost (program context.now) rule))
        (λ prepared. IsPreparedCostRule (program context.now) rule prepared.now) }
{
    if !is_rule(context.program, rule) {
        return None;
    }
    match &context.costs[rule as usize - 1] {
        Some(prepared) => Some(prepared),
        None => None,
    }
}
