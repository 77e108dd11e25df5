//! The sizes that a side bound of a cost needs.

ghost use Rattle.std.specs.Prelude.{◌≡◌, suc, ◌<◌, ◌^◌, ◌++◌, map, All, IfOk, OnOk};
ghost use Rattle.model.specs.Paths.{pre};
ghost use Rattle.model.specs.Programs.{Program};
ghost use Rattle.cert_types.specs.Views.{result_variable_of, side_bound_of};
ghost use Rattle.cert_types.specs.cert_program.Setting.{setting_of};
ghost use Rattle.cert_types.specs.cert_rules.Checks.{needed_at_cost, result_variables_after};
ghost use Rattle.cost_nodes.specs.ComposedCosts.{result_variables_after_each};
ghost use Rattle.cost_nodes.specs.CostRules.{IsPreparedCost};

use crate::prepared_cost::PreparedCost;
use cert_types::{ResultVariable, SideBound, nonlinear_update, places_read};
use model::Memory;
use std::alloc::Global;

/// The result variables whose size bounds a side bound of a cost needs: after each rule that can come before, ascending,
/// the arguments that the side bound reads, ascending. Whether they are known isn't looked at.
///
/// # Errors
///
/// `Memory` if an allocation fails.
pub fn needed_sizes(
    alloc: Global,
    cost: &PreparedCost,
    side_bound: &SideBound,
) -> Result<Vec<ResultVariable>, Memory>
    requires { (p : Program) × IsPreparedCost p cost.now }
    ensures { IfOk result (λ result_variables. (p : Program) → IsPreparedCost p cost.now
        → map result_variable_of result_variables.items
        ≡ needed_at_cost (setting_of p) cost.now.rule (side_bound_of side_bound.now) (pre p cost.now.rule)) }
{
    let before = cost.graph.pre(cost.rule);
    let poly = nonlinear_update(cost.rows, 0);
    let places = places_read(alloc, side_bound, poly, cost.rows.left)?;
    after_each(alloc, &places, before)
}

// The result variable of a rule and of the place at a position, counted from 0.
fn result_variable_at(rule: u32, position: u32) -> ResultVariable
    requires { position < 2 ^ 31 }
    ensures { result_variable_of result ≡ record { rule = rule; place = suc position } }
{
    ResultVariable {
        rule,
        place: position + 1,
    }
}

// Appends these places, numbered from 0, after a rule.
fn push_after(
    result_variables: &mut Vec<ResultVariable>,
    places: &[u32],
    rule: u32,
) -> Result<(), Memory>
    requires { All (λ j. j < 2 ^ 31) places.now }
    ensures { OnOk result (map result_variable_of result_variables.new.items
        ≡ map result_variable_of result_variables.old.items ++ result_variables_after rule places.now) }
{
    for place in places {
        result_variables.push(result_variable_at(rule, *place))?;
    }
    Ok(())
}

// These places after each of these rules.
fn after_each(alloc: Global, places: &[u32], before: &[u32]) -> Result<Vec<ResultVariable>, Memory>
    requires { All (λ j. j < 2 ^ 31) places.now }
    ensures { IfOk result (λ result_variables. map result_variable_of result_variables.items
        ≡ result_variables_after_each places.now before.now) }
{
    let mut result_variables = Vec::new(alloc);
    for rule in before {
        push_after(&mut result_variables, places, *rule)?;
    }
    Ok(result_variables)
}
