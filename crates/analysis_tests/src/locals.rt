//! The local bound of a place.

ghost use Rattle.std.specs.List.{All};
ghost use Rattle.its_model.specs.Valid.{IsValid};
ghost use Rattle.its_model.specs.Views.{program_of};
ghost use Rattle.rank_search.specs.rule_questions.EmptyAnswers.{IsPrepared, SaysEmpty};

use crate::programs::all_rows;
use cert_types::{GuardFeasibility, LimitHit, ResultVariable};
use guard_prep::RuleRows;
use its_model::Program;
use local_size::local;
use model::Memory;
use rank_search::guard_feasibility;
use std::alloc::Global;

/// The answer for a place of a rule, by whether it is known that the question whether the rule's rows have a point hit
/// a limit, or else by the answer to it.
pub(crate) fn answer_in(
    alloc: Global,
    p: &Program,
    result_variable: ResultVariable,
    pivots: u32,
    known: Option<LimitHit>,
) -> Result<String, Memory>
    requires { IsValid (program_of p.now) }
{
    let prepared_rules = all_rows(alloc, p)?;
    answer_by(alloc, &prepared_rules, result_variable, pivots, known)
}

// The answer for a place of a rule with these rows.
fn answer_by(
    alloc: Global,
    prepared_rules: &[RuleRows],
    result_variable: ResultVariable,
    pivots: u32,
    known: Option<LimitHit>,
) -> Result<String, Memory>
    requires { All IsPrepared prepared_rules.now }
{
    if result_variable.rule == 0 {
        return String::from_str(alloc, "no rule");
    }
    let wanted = result_variable.rule as usize - 1;
    if wanted >= prepared_rules.len() {
        return String::from_str(alloc, "no rule");
    }
    let prepared_rule = &prepared_rules[wanted];
    match known {
        Some(limit_hit) => {
            let limit_hit = GuardFeasibility::OutOfLimits(limit_hit);
            bounded(alloc, prepared_rule, result_variable, pivots, &limit_hit)
        }
        None => {
            let found = guard_feasibility(alloc, prepared_rule, result_variable.rule, pivots)?;
            asked(alloc, prepared_rule, result_variable, pivots, found)
        }
    }
}

// The answer for a place of a rule whose rows may have a point, or that they have none.
fn asked(
    alloc: Global,
    prepared_rule: &RuleRows,
    result_variable: ResultVariable,
    pivots: u32,
    feasibility: GuardFeasibility,
) -> Result<String, Memory>
    requires { IsPrepared prepared_rule.now }
{
    match feasibility {
        GuardFeasibility::Empty(_) => String::from_str(alloc, "empty"),
        GuardFeasibility::Point(point) => {
            let point = GuardFeasibility::Point(point);
            bounded(alloc, prepared_rule, result_variable, pivots, &point)
        }
        GuardFeasibility::OutOfLimits(limit_hit) => {
            let limit_hit = GuardFeasibility::OutOfLimits(limit_hit);
            bounded(alloc, prepared_rule, result_variable, pivots, &limit_hit)
        }
    }
}

// The answer for a place of a rule whose rows may have a point.
fn bounded(
    alloc: Global,
    prepared_rule: &RuleRows,
    result_variable: ResultVariable,
    pivots: u32,
    feasibility: &GuardFeasibility,
) -> Result<String, Memory>
    requires prepared { IsPrepared prepared_rule.now }
    requires may_run { ¬ SaysEmpty feasibility.now }
{
    if result_variable.place == 0 {
        return String::from_str(alloc, "no place");
    }
    if result_variable.place as usize > prepared_rule.new_values.len() {
        return String::from_str(alloc, "no place");
    }
    let found = local(alloc, prepared_rule, result_variable, feasibility, pivots)?;
    format!(in alloc; "{found:?}")
}
