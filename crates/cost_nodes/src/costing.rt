//! Rules with costs, and the rows over which a cost is bounded.

ghost use Rattle.std.specs.Prelude.{◌↔◌, IfOk, IsTrue};
ghost use Rattle.its_model.specs.Valid.{IsValid};
ghost use Rattle.its_model.specs.Views.{program_of, rule_of};
ghost use Rattle.model.specs.Costs.{HasCost};
ghost use Rattle.cost_nodes.specs.CostRules.{IsPreparedCostRule, IsWritten};

use gap_checks::is_rule;
use guard_prep::{RuleRows, rows};
use its_model::{Program, Rule, cost_program};
use model::Memory;
use std::alloc::Global;

/// Whether the number is that of a rule with a cost.
pub fn has_cost(p: &Program, rule: u32) -> bool
    ensures { IsTrue result ↔ HasCost (program_of p.now) rule }
{
    if !is_rule(p, rule) {
        return false;
    }
    is_written(&p.rules[rule as usize - 1])
}

// Whether a rule has a cost.
fn is_written(rule: &Rule) -> bool
    ensures { IsTrue result ↔ IsWritten (rule_of rule.now).cost }
{
    match &rule.cost {
        Some(_) => true,
        None => false,
    }
}

/// The prepared rows of the cost rule of a rule with a cost: those of its guard and of the atom that the cost is at
/// least 0, with the cost as the only new value.
///
/// # Errors
///
/// `Memory` if an allocation fails.
pub fn cost_rows(alloc: Global, p: &Program, rule: u32) -> Result<RuleRows, Memory>
    requires valid { IsValid (program_of p.now) }
    requires costs { HasCost (program_of p.now) rule }
    ensures { IfOk result (λ prepared. IsPreparedCostRule (program_of p.now) rule prepared) }
{
    let q = cost_program(alloc, p, rule)?;
    rows(alloc, &q.rules[0])
}
