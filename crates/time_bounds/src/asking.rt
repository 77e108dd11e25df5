//! The rank question of a rule, and its answer.

ghost use Rattle.std.specs.Prelude.{◌≡◌, ◌<◌, ◌≤◌, true, IfOk, IfSome, OnOk, Some, None, slice_index_or, false};
ghost use Rattle.rank_search.specs.RankAnswers.{IsRuleSet, MayAllRun};
ghost use Rattle.size_bounds.specs.Tables.{bounds_in};
ghost use Rattle.time_bounds.specs.Parts.{AreParts};
ghost use Rattle.time_bounds.specs.Questions.{AnswersQuestion, IsAsked, BelongsTogether, IsSameQuestion, IsTable, program_in};

use crate::context::Context;
use crate::parts::{OpenSet, Parts, open_set};
use model::Memory;
use rank_search::{RankAnswer, find_rank};
use size_bounds::Table;

/// A ranking query that was answered, with its set and its shut places.
#[derive(Drop)]
pub(crate) struct AnsweredRankQuestion {
    pub set: Vec<u32>,
    pub shut: Vec<(u32, u32)>,
    pub answer: RankAnswer,
}

/// The ranking query for a rule without a time, given the bounds known so far. If it is the rule's previous query
/// again, the previous answer is reused.
pub(crate) fn ask(
    cx: &Context,
    table: &Table,
    parts: &mut Parts,
    rule: u32,
    before: Option<AnsweredRankQuestion>,
) -> Result<AnsweredRankQuestion, Memory>
    requires ready { BelongsTogether cx.now }
    requires table { IsTable (program_in cx.now) table.now cx.now.empties.items }
    requires parts { AreParts (program_in cx.now) table.now parts.old }
    requires untimed { slice_index_or parts.old.untimed.items rule false ≡ true }
    requires kept { IfSome before (λ a. AnswersQuestion (program_in cx.now) cx.now.pivots cx.now.empties.items rule a) }
    ensures asked { IfOk result (λ a. IsAsked (program_in cx.now) (bounds_in table.now) rule a) }
    ensures answered { IfOk result (λ a. AnswersQuestion (program_in cx.now) cx.now.pivots cx.now.empties.items rule a) }
    ensures parts { OnOk result (AreParts (program_in cx.now) table.now parts.new) }
{
    let found = open_set(cx, table, parts, rule)?;
    let OpenSet { set, shut } = found;
    answered(cx, rule, set, shut, before)
}

// The answer that is kept, where the question is the same, and else a new one.
fn answered(
    cx: &Context,
    rule: u32,
    set: Vec<u32>,
    shut: Vec<(u32, u32)>,
    before: Option<AnsweredRankQuestion>,
) -> Result<AnsweredRankQuestion, Memory>
    requires ready { BelongsTogether cx.now }
    requires rules { IsRuleSet (program_in cx.now) set.items rule }
    requires may_run { MayAllRun set.items cx.now.empties.items }
    requires kept { IfSome before (λ a. AnswersQuestion (program_in cx.now) cx.now.pivots cx.now.empties.items rule a) }
    ensures set { IfOk result (λ a. a.set.items ≡ set.items) }
    ensures shut { IfOk result (λ a. a.shut.items ≡ shut.items) }
    ensures answered { IfOk result (λ a. AnswersQuestion (program_in cx.now) cx.now.pivots cx.now.empties.items rule a) }
{
    match same_question(before, &set, &shut) {
        Some(old) => Ok(old),
        None => new_answer(cx, rule, set, shut),
    }
}

// The previous query, if it has this set and these shut places.
fn same_question(
    before: Option<AnsweredRankQuestion>,
    set: &[u32],
    shut: &[(u32, u32)],
) -> Option<AnsweredRankQuestion>
    ensures { IfSome result (λ a. IsSameQuestion before set.now shut.now a) }
{
    let old = before?;
    let same_set = are_same_rules(&old.set, set);
    if !same_set {
        return None;
    }
    let same_shut = are_same_places(&old.shut, shut);
    if same_shut { Some(old) } else { None }
}

// Whether two sets are the same.
fn are_same_rules(first: &[u32], second: &[u32]) -> bool
    ensures { result ≡ true → first.now ≡ second.now }
{
    first == second
}

// Whether two lists of places are the same.
fn are_same_places(first: &[(u32, u32)], second: &[(u32, u32)]) -> bool
    ensures { result ≡ true → first.now ≡ second.now }
{
    if first.len() != second.len() {
        return false;
    }
    for i in 0..first.len() {
        let is_same = first[i].0 == second[i].0 && first[i].1 == second[i].1;
        if !is_same {
            return false;
        }
    }
    true
}

// The answer to a query that is new.
fn new_answer(
    cx: &Context,
    rule: u32,
    set: Vec<u32>,
    shut: Vec<(u32, u32)>,
) -> Result<AnsweredRankQuestion, Memory>
    requires ready { BelongsTogether cx.now }
    requires rules { IsRuleSet (program_in cx.now) set.items rule }
    requires may_run { MayAllRun set.items cx.now.empties.items }
    ensures set { IfOk result (λ a. a.set.items ≡ set.items) }
    ensures shut { IfOk result (λ a. a.shut.items ≡ shut.items) }
    ensures answered { IfOk result (λ a. AnswersQuestion (program_in cx.now) cx.now.pivots cx.now.empties.items rule a) }
{
    let answer = find_rank(
        cx.alloc,
        cx.program,
        &cx.prepared_rules,
        &set,
        rule,
        &shut,
        &cx.empties,
        cx.pivots,
    )?;
    Ok(AnsweredRankQuestion { set, shut, answer })
}
