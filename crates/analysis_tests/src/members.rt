//! Places with their local bounds, as the input of the searches for sizes.

ghost use Rattle.std.specs.Prelude.{◌≡◌, true, length, map, IfOk, IfSome, OnOk};
ghost use Rattle.std.specs.List.{All};
ghost use Rattle.model.specs.Programs.{Program as PlainProgram};
ghost use Rattle.its_model.specs.Valid.{IsValid};
ghost use Rattle.cert_types.specs.cert_rules.AcceptsSizes.{AreAscending, ComesBefore};
ghost use Rattle.cert_types.specs.Composing.{AreRowsOf};
ghost use Rattle.cert_types.specs.Views.{member_of, result_variable_of};
ghost use Rattle.rank_search.specs.rule_questions.EmptyAnswers.{IsPrepared, SaysEmpty};
ghost use Rattle.time_bounds.specs.Candidates.{IsAccepted};

use crate::words::number_at;
use cert_types::{GuardFeasibility, LimitCause, LimitHit, Member, Question, ResultVariable};
use guard_prep::RuleRows;
use local_size::{LocalAnswer, local};
use model::Memory;
use std::alloc::Global;

const PIVOTS: u32 = 10_000;

// The answer that it isn't known whether the rows of a rule have a point. No side bound depends on it.
fn unknown(rule: u32) -> GuardFeasibility
    ensures { ¬ SaysEmpty result }
{
    GuardFeasibility::OutOfLimits(LimitHit {
        question: Question::Empty { rule },
        cause: LimitCause::Budget { pivots: 0 },
    })
}

/// The answer for each place of a rule.
pub(crate) fn locals_after(
    alloc: Global,
    prepared_rule: &RuleRows,
    rule: u32,
) -> Result<Vec<LocalAnswer>, Memory>
    requires { IsPrepared prepared_rule.now }
    ensures { IfOk result (λ answers. length answers.items ≡ length prepared_rule.now.new_values.items) }
{
    let mut answers = Vec::new(alloc);
    for position in 0..prepared_rule.new_values.len() {
        let result_variable = ResultVariable {
            rule,
            place: number_at(position),
        };
        answers.push(local(
            alloc,
            prepared_rule,
            result_variable,
            &unknown(rule),
            PIVOTS,
        )?)?;
    }
    Ok(answers)
}

// A place of a rule with its local bound, if it has one.
fn member_at(
    alloc: Global,
    prepared_rules: &[RuleRows],
    result_variable: ResultVariable,
) -> Result<Option<Member>, Memory>
    requires { (p : PlainProgram) × (IsValid p × AreRowsOf prepared_rules.now p) }
    ensures { IfOk result (λ o. (p : PlainProgram) → IsValid p → AreRowsOf prepared_rules.now p
        → IfSome o (λ m. IsAccepted p (member_of m))) }
{
    if result_variable.rule == 0 {
        return Ok(None);
    }
    let wanted = result_variable.rule as usize - 1;
    if wanted >= prepared_rules.len() {
        return Ok(None);
    }
    let prepared_rule = &prepared_rules[wanted];
    if result_variable.place == 0 {
        return Ok(None);
    }
    if result_variable.place as usize > prepared_rule.new_values.len() {
        return Ok(None);
    }
    match local(
        alloc,
        prepared_rule,
        result_variable,
        &unknown(result_variable.rule),
        PIVOTS,
    )? {
        LocalAnswer::Bound(local) => Ok(Some(Member {
            result_variable,
            local,
        })),
        LocalAnswer::UnboundedSide(_) => Ok(None),
        LocalAnswer::OutOfLimits(_) => Ok(None),
    }
}

// Appends a place of a rule with its local bound, if it has one.
fn push_member(
    alloc: Global,
    members: &mut Vec<Member>,
    prepared_rules: &[RuleRows],
    result_variable: ResultVariable,
) -> Result<(), Memory>
    requires { (p : PlainProgram) × (IsValid p × AreRowsOf prepared_rules.now p) }
    ensures { OnOk result ((p : PlainProgram) → IsValid p → AreRowsOf prepared_rules.now p
        → All (IsAccepted p) (map member_of members.old.items) → All (IsAccepted p) (map member_of members.new.items)) }
{
    if let Some(member) = member_at(alloc, prepared_rules, result_variable)? {
        members.push(member)?;
    }
    Ok(())
}

/// Those of these places that have local bounds, with their bounds.
pub(crate) fn members_at(
    alloc: Global,
    prepared_rules: &[RuleRows],
    result_variables: &[ResultVariable],
) -> Result<Vec<Member>, Memory>
    requires { (p : PlainProgram) × (IsValid p × AreRowsOf prepared_rules.now p) }
    ensures { IfOk result (λ members. (p : PlainProgram) → IsValid p → AreRowsOf prepared_rules.now p
        → All (IsAccepted p) (map member_of members.items)) }
{
    let mut members = Vec::new(alloc);
    for result_variable in result_variables {
        push_member(alloc, &mut members, prepared_rules, *result_variable)?;
    }
    Ok(members)
}

// Whether one place comes before another: by rule, and then by place.
fn comes_before(one: ResultVariable, other: ResultVariable) -> bool
    ensures { result ≡ true → ComesBefore (result_variable_of one) (result_variable_of other) }
{
    one.rule < other.rule || one.rule == other.rule && one.place < other.place
}

/// Whether members ascend.
pub(crate) fn ascend(members: &[Member]) -> bool
    ensures { result ≡ true → AreAscending (map member_of members.now) }
{
    let Some((first, others)) = members.split_first() else {
        return true;
    };
    let Some((next, _)) = others.split_first() else {
        return true;
    };
    if !comes_before(first.result_variable, next.result_variable) {
        return false;
    }
    ascend(others)
}
