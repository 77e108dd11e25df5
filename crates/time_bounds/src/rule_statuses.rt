//! The status of rules that never run: infeasible, or unreached.

ghost use Rattle.std.specs.Prelude.{◌≡◌, ◌<◌, ◌-◌, ◌^◌, length, IfOk};
ghost use Rattle.std.specs.List.{All};
ghost use Rattle.time_bounds.specs.ProgramSearches.{searches_of_program};
ghost use Rattle.time_bounds.specs.Questions.{BelongsTogether, program_in};
ghost use Rattle.time_bounds.specs.RuleStatuses.{says_empty, said_empty, rule_status_of, rule_statuses_by, AreRuleStatuses};

use crate::context::Context;
use cert_types::GuardFeasibility;
use its_model::Rule;
use model::Memory;
use std::alloc::Global;

/// Whether a rule is known never to run.
#[derive(Clone, Copy, PartialEq, Eq)]
pub(crate) enum RuleStatus {
    /// The rows of the rule have no point.
    Empty,
    /// No path of feasible rules leads to the source of the rule.
    Unreached,
    /// Neither is known.
    Live,
}

/// The status of each rule, in order.
pub(crate) fn rule_statuses(cx: &Context) -> Result<Vec<RuleStatus>, Memory>
    requires ready { BelongsTogether cx.now }
    ensures { IfOk result (λ rule_statuses. AreRuleStatuses (searches_of_program (program_in cx.now) cx.now.pivots) (program_in cx.now)
        rule_statuses.items) }
{
    let cut = empty_rules(cx.alloc, &cx.empties)?;
    let reached = cx.graph.reached(cx.alloc, &cut)?;
    rule_statuses_of(cx.alloc, &cx.program.rules, &cx.empties, &reached)
}

// The numbers of the rules whose rows have no point, in order.
fn empty_rules(alloc: Global, empties: &[GuardFeasibility]) -> Result<Vec<u32>, Memory>
    requires { length empties.now < 2 ^ 32 - 1 }
    ensures { IfOk result (λ found. found.items ≡ said_empty empties.now) }
{
    let mut found = Vec::new(alloc);
    for (position, answer) in empties.iter().enumerate() {
        if is_empty(answer) {
            found.push(position as u32 + 1)?;
        }
    }
    Ok(found)
}

// Whether the answer is that the rows have no point.
fn is_empty(answer: &GuardFeasibility) -> bool
    ensures { result ≡ says_empty answer.now }
{
    match answer {
        GuardFeasibility::Empty(_) => true,
        GuardFeasibility::Point(_) => false,
        GuardFeasibility::OutOfLimits(_) => false,
    }
}

// The statuses of rules, by their answers and by which symbols are reached.
fn rule_statuses_of(
    alloc: Global,
    rules: &[Rule],
    empties: &[GuardFeasibility],
    reached: &[bool],
) -> Result<Vec<RuleStatus>, Memory>
    requires one_each { length empties.now ≡ length rules.now }
    requires sources { All (λ r. r.source < length reached.now) rules.now }
    ensures { IfOk result (λ rule_statuses. rule_statuses.items ≡ rule_statuses_by reached.now empties.now rules.now) }
{
    let mut found = Vec::new(alloc);
    for (position, rule) in rules.iter().enumerate() {
        let is_reached = reached[rule.source as usize];
        found.push(rule_status_by(&empties[position], is_reached))?;
    }
    Ok(found)
}

// The status of a rule by its answer and by whether its source is reached.
fn rule_status_by(answer: &GuardFeasibility, is_reached: bool) -> RuleStatus
    ensures { result ≡ rule_status_of answer.now is_reached }
{
    if is_empty(answer) {
        return RuleStatus::Empty;
    }
    if is_reached {
        RuleStatus::Live
    } else {
        RuleStatus::Unreached
    }
}
