//! Local bounds for all places of live rules.

ghost use Rattle.std.specs.Prelude.{◌≡◌, ◌+◌, ◌<◌, length, map, IfOk, Some};
ghost use Rattle.std.specs.Prelude.{slice_get};
ghost use Rattle.guard_prep.specs.Views.{prepared_of};
ghost use Rattle.cert_types.specs.declared.answer.GuardFeasibility.{GuardFeasibility};
ghost use Rattle.rank_search.specs.rule_questions.EmptyAnswers.{IsPrepared, SaysEmpty};
ghost use Rattle.rvg_components.specs.Listing.{answer_lists};
ghost use Rattle.time_bounds.specs.declared.rule_statuses.RuleStatus.TheVariants.{Live};
ghost use Rattle.time_bounds.specs.ProgramSearches.{searches_of_program};
ghost use Rattle.time_bounds.specs.Questions.{BelongsTogether, program_in};
ghost use Rattle.time_bounds.specs.RuleStatuses.{AreRuleStatuses};
ghost use Rattle.time_bounds.specs.Locals.{is_live_rule_status, AreAnswersAt, AreAnswersAfter, AreAllAnswers};

use crate::context::Context;
use crate::rule_statuses::RuleStatus;
use cert_types::{GuardFeasibility, ResultVariable};
use guard_prep::RuleRows;
use local_size::{LocalAnswer, local};
use model::Memory;
use std::alloc::Global;

/// Which rules are live, in order.
pub(crate) fn live_rules(alloc: Global, rule_statuses: &[RuleStatus]) -> Result<Vec<bool>, Memory>
    ensures { IfOk result (λ live. live.items ≡ map is_live_rule_status rule_statuses.now) }
{
    let mut live = Vec::new(alloc);
    for rule_status in rule_statuses {
        live.push(is_live(*rule_status))?;
    }
    Ok(live)
}

// Whether a rule of this status is live.
fn is_live(rule_status: RuleStatus) -> bool
    ensures { result ≡ is_live_rule_status rule_status }
{
    match rule_status {
        RuleStatus::Empty => false,
        RuleStatus::Unreached => false,
        RuleStatus::Live => true,
    }
}

/// For each place of each live rule, how large the new value can be in one step, rule by rule. A rule that never runs
/// isn't queried.
pub(crate) fn all_locals(
    cx: &Context,
    rule_statuses: &[RuleStatus],
) -> Result<Vec<Vec<LocalAnswer>>, Memory>
    requires ready { BelongsTogether cx.now }
    requires rule_statuses { AreRuleStatuses (searches_of_program (program_in cx.now) cx.now.pivots) (program_in cx.now) rule_statuses.now }
    ensures { IfOk result (λ locals. AreAllAnswers (program_in cx.now) cx.now.pivots 1 rule_statuses.now
        (answer_lists locals.items)) }
{
    let mut locals = Vec::new(cx.alloc);
    for (position, rule_status) in rule_statuses.iter().enumerate() {
        locals.push(locals_after(cx, position, *rule_status)?)?;
    }
    Ok(locals)
}

// The answers for the places of the rule at a position, which has this status.
fn locals_after(
    cx: &Context,
    position: usize,
    rule_status: RuleStatus,
) -> Result<Vec<LocalAnswer>, Memory>
    requires ready { BelongsTogether cx.now }
    requires position { position < length cx.now.program.now.rules.items }
    requires may_run { (a : GuardFeasibility) → rule_status ≡ Live → slice_get cx.now.empties.items position ≡ Some a
        → ¬ SaysEmpty a }
    ensures { IfOk result (λ answers. AreAnswersAfter (program_in cx.now) cx.now.pivots (position + 1) rule_status
        answers.items) }
{
    match rule_status {
        RuleStatus::Empty => Ok(Vec::new(cx.alloc)),
        RuleStatus::Unreached => Ok(Vec::new(cx.alloc)),
        RuleStatus::Live => {
            let arity = cx.program.symbols[cx.program.rules[position].target as usize].arity;
            let rule = position as u32 + 1;
            live_locals(
                cx,
                &cx.prepared_rules[position],
                rule,
                arity,
                &cx.empties[position],
            )
        }
    }
}

// The answers for this many places of a rule.
fn live_locals(
    cx: &Context,
    prepared_rule: &RuleRows,
    rule: u32,
    arity: u32,
    empty: &GuardFeasibility,
) -> Result<Vec<LocalAnswer>, Memory>
    requires prepared { IsPrepared prepared_rule.now }
    requires places { length prepared_rule.now.new_values.items ≡ arity }
    requires may_run { ¬ SaysEmpty empty.now }
    ensures one_each { IfOk result (λ answers. length answers.items ≡ arity) }
    ensures each { IfOk result (λ answers. AreAnswersAt (prepared_of prepared_rule.now) rule cx.now.pivots empty.now 1
        answers.items) }
{
    let mut answers = Vec::new(cx.alloc);
    for position in 0..arity {
        let result_variable = ResultVariable {
            rule,
            place: position + 1,
        };
        answers.push(local(cx.alloc, prepared_rule, result_variable, empty, cx.pivots)?)?;
    }
    Ok(answers)
}
