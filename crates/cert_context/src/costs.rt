//! Prepares the cost rules of a program.

ghost use Rattle.std.specs.Prelude.{IfOk};
ghost use Rattle.its_model.specs.Valid.{IsValid};
ghost use Rattle.its_model.specs.Views.{program_of};
ghost use Rattle.cert_context.specs.CostRows.{ArePreparedCostRules, StatesCost};

use cost_nodes::{cost_rows, has_cost};
use guard_prep::RuleRows;
use its_model::Program;
use model::Memory;
use std::alloc::Global;

// The prepared rows of the cost rule of a rule, if it has a cost.
fn prepared_cost(alloc: Global, p: &Program, rule: u32) -> Result<Option<RuleRows>, Memory>
    requires { IsValid (program_of p.now) }
    ensures { IfOk result (λ prepared. StatesCost (program_of p.now) rule prepared) }
{
    if !has_cost(p, rule) {
        return Ok(None);
    }
    let prepared = cost_rows(alloc, p, rule)?;
    Ok(Some(prepared))
}

/// The prepared rows of the cost rule of each rule, in order.
///
/// # Errors
///
/// `Memory` where an allocation fails.
pub(crate) fn all_costs(alloc: Global, p: &Program) -> Result<Vec<Option<RuleRows>>, Memory>
    requires { IsValid (program_of p.now) }
    ensures { IfOk result (λ costs. ArePreparedCostRules (program_of p.now) costs.items) }
{
    let mut costs = Vec::new(alloc);
    for i in 0..p.rules.len() {
        let one = prepared_cost(alloc, p, i as u32 + 1)?;
        costs.push(one)?;
    }
    Ok(costs)
}
