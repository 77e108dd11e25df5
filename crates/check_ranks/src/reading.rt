//! Lists the places that a ranking function reads after the entries of its set.

ghost use Rattle.std.specs.Prelude.{◌≡◌, suc, ◌<◌, ◌^◌, ◌++◌, length, map, IfOk, OnOk};
ghost use Rattle.cert_context.specs.CheckContexts.{IsCheckContext, setting};
ghost use Rattle.cert_types.specs.cert_rules.Checks.{read_after};
ghost use Rattle.cert_types.specs.Views.{rank_of, result_variable_of};
ghost use Rattle.cert_types.specs.cert_rules.AcceptsRank.{HasRankShape};
ghost use Rattle.cert_types.specs.cert_rules.Checks.{needed_after_each};

use crate::forms::form_at;
use crate::goals::coefs_of;
use cert_context::{CheckContext, coefficient};
use cert_types::{RankNode, ResultVariable, target_of};
use model::Memory;
use std::alloc::Global;

// The place after a rule at a position.
fn result_variable_at(rule: u32, position: usize) -> ResultVariable
    requires { position < 2 ^ 31 }
    ensures { result_variable_of result ≡ record { rule = rule; place = suc position } }
{
    ResultVariable {
        rule,
        place: position as u32 + 1,
    }
}

// Appends the places after a rule at which the coefficients aren't 0.
fn push_read(
    result_variables: &mut Vec<ResultVariable>,
    coefs: &[i64],
    rule: u32,
) -> Result<(), Memory>
    requires { length coefs.now < 2 ^ 31 }
    ensures { OnOk result (map result_variable_of result_variables.new.items ≡ map result_variable_of result_variables.old.items ++ read_after coefs.now rule) }
{
    for position in 0..coefs.len() {
        let coef = coefficient(coefs, position);
        if coef != 0 {
            result_variables.push(result_variable_at(rule, position))?;
        }
    }
    Ok(())
}

/// The places that the function reads after these entries, in order.
///
/// # Errors
///
/// `Memory` where an allocation fails.
pub(crate) fn needed_result_variables(
    alloc: Global,
    context: &CheckContext,
    node: &RankNode,
    entering: &[u32],
) -> Result<Vec<ResultVariable>, Memory>
    requires context { IsCheckContext context.now }
    requires shape { HasRankShape (setting context.now) (rank_of node.now) }
    ensures { IfOk result (λ result_variables. map result_variable_of result_variables.items
        ≡ needed_after_each (setting context.now) (rank_of node.now) entering.now) }
{
    let mut result_variables = Vec::new(alloc);
    for entry in entering {
        let form = form_at(&node.forms, target_of(context.program, *entry));
        push_read(&mut result_variables, coefs_of(form), *entry)?;
    }
    Ok(result_variables)
}
