//! Builds the entry of each time: a bound, or why there is none.

ghost use Rattle.std.specs.Prelude.{◌≡◌, ◌⊎◌, ◌+◌, ◌<◌, ◌≤◌, ◌^◌, ◌++◌, ◌∷◌, [], length, map, true, false};
ghost use Rattle.std.specs.Prelude.{IfOk, OnOk};
ghost use Rattle.std.specs.List.{All};
ghost use Rattle.outcome.specs.Views.{time_of};
ghost use Rattle.outcome.specs.Printing.{HasItsGap};
ghost use Rattle.cert_types.specs.cert_rules.GapChecks.{GapHolds};
ghost use Rattle.cert_types.specs.AnswerViews.{gap_of};
ghost use Rattle.rank_search.specs.rule_questions.ProgramQuestions.{forms_at};
ghost use Rattle.bound_fixpoint.specs.Keys.{is_untimed};
ghost use Rattle.size_bounds.specs.Tables.{number_at};
ghost use Rattle.size_bounds.specs.Tables.{bounds_in};
ghost use Rattle.time_bounds.specs.ProgramSearches.{searches_of_program};
ghost use Rattle.time_bounds.specs.Questions.{BelongsTogether, program_in};
ghost use Rattle.time_bounds.specs.TriedRules.{IsAskedOver, AreAskedOver, IsMissing, IsGrown};
ghost use Rattle.time_bounds.specs.TimesSaid.{IsTimeOver, AreTimesOver, IsKnownTime};
ghost use Rattle.time_bounds.specs.AnalysisLemmas.{CarriesTime, AreGapsInOrder};
ghost use Rattle.time_bounds.specs.Numbered.{EachNumbered};

use crate::asking::AnsweredRankQuestion;
use crate::context::Context;
use bound_table::RewriteResult;
use cert_types::{Gap, rank_time};
use model::Memory;
use outcome::{Stored, TimeEntry};
use rank_search::RankAnswer;
use size_bounds::Table;
use std::alloc::Global;

/// The entry of each rule's time, and the gaps that these name.
#[derive(Drop)]
pub(crate) struct TimesAndGaps {
    pub times: Vec<TimeEntry>,
    pub gaps: Vec<Gap>,
}

/// For each rule its time, or why there is none, by the query that the last round kept. The gaps are numbered from 1 in
/// the order of rules.
pub(crate) fn time_entries(
    cx: &Context,
    table: &Table,
    asked: Vec<Option<AnsweredRankQuestion>>,
) -> Result<TimesAndGaps, Memory>
    requires ready { BelongsTogether cx.now }
    requires start { is_untimed (bounds_in table.now) 0 ≡ false }
    requires asked { AreAskedOver (program_in cx.now) (bounds_in table.now) (bounds_in table.now) cx.now.pivots
        cx.now.empties.items 1 asked.items }
    requires few { length asked.items < 2 ^ 31 }
    requires rules { length asked.items ≤ length (program_in cx.now).rules }
    ensures one_each { IfOk result (λ said. length said.times.items ≡ length asked.items) }
    ensures said { IfOk result (λ said. AreTimesOver (searches_of_program (program_in cx.now) cx.now.pivots)
        (program_in cx.now) (bounds_in table.now) 1 (map (time_of said.gaps.items) said.times.items)) }
    ensures gaps { IfOk result (λ said. All (HasItsGap (length said.gaps.items)) said.times.items) }
    ensures hold { IfOk result (λ said. All
        (λ g. GapHolds (program_in cx.now) (forms_at (program_in cx.now)) (gap_of g)) said.gaps.items) }
    ensures carried { IfOk result (λ said. EachNumbered (CarriesTime (number_at table.now)) 1 said.times.items) }
    ensures in_order { IfOk result (λ said. AreGapsInOrder 0 said.times.items (length said.gaps.items)) }
{
    let mut times = Vec::new(cx.alloc);
    let mut gaps = Vec::new(cx.alloc);
    for question in asked {
        let rule = times.len() as u32 + 1;
        times.push(time_entry(cx, table, rule, question, &mut gaps)?)?;
    }
    Ok(TimesAndGaps { times, gaps })
}

// The time of a rule, or why there is none.
fn time_entry(
    cx: &Context,
    table: &Table,
    rule: u32,
    question: Option<AnsweredRankQuestion>,
    gaps: &mut Vec<Gap>,
) -> Result<TimeEntry, Memory>
    requires ready { BelongsTogether cx.now }
    requires start { is_untimed (bounds_in table.now) 0 ≡ false }
    requires rule { (1 ≤ rule) × (rule ≤ length (program_in cx.now).rules) }
    requires asked { IsAskedOver (program_in cx.now) (bounds_in table.now) (bounds_in table.now) cx.now.pivots
        cx.now.empties.items rule question }
    requires few { length gaps.old.items + 1 < 2 ^ 32 }
    requires hold { All (λ g. GapHolds (program_in cx.now) (forms_at (program_in cx.now)) (gap_of g)) gaps.old.items }
    ensures grown { IfOk result (λ entry. IsGrown gaps.old.items gaps.new.items) }
    ensures said { IfOk result (λ entry. IsTimeOver (searches_of_program (program_in cx.now) cx.now.pivots)
        (program_in cx.now) (bounds_in table.now) rule (time_of gaps.new.items entry)) }
    ensures gap { IfOk result (λ entry. HasItsGap (length gaps.new.items) entry) }
    ensures hold { OnOk result (All (λ g. GapHolds (program_in cx.now) (forms_at (program_in cx.now)) (gap_of g))
        gaps.new.items) }
    ensures carries { IfOk result (λ entry. CarriesTime (number_at table.now) rule entry) }
    ensures in_order { IfOk result (λ entry. AreGapsInOrder (length gaps.old.items) (entry ∷ [])
        (length gaps.new.items)) }
{
    match question {
        Some(asked) => no_time(cx, table, rule, asked, gaps),
        None => known_time(cx.alloc, table, rule),
    }
}

// The time that the table has.
fn known_time(alloc: Global, table: &Table, rule: u32) -> Result<TimeEntry, Memory>
    requires { is_untimed (bounds_in table.now) rule ≡ false }
    ensures time { IfOk result (λ entry. IsKnownTime (bounds_in table.now) rule entry) }
    ensures carries { IfOk result (λ entry. CarriesTime (number_at table.now) rule entry) }
{
    match table.stored_time(rule) {
        Some(stored) => Ok(TimeEntry::Known(Stored {
            bound: stored.bound.copied(alloc)?,
            lemma: stored.lemma,
        })),
        None => unreachable!(),
    }
}

// Why an answer gives no time.
fn no_time(
    cx: &Context,
    table: &Table,
    rule: u32,
    asked: AnsweredRankQuestion,
    gaps: &mut Vec<Gap>,
) -> Result<TimeEntry, Memory>
    requires ready { BelongsTogether cx.now }
    requires start { is_untimed (bounds_in table.now) 0 ≡ false }
    requires rule { (1 ≤ rule) × (rule ≤ length (program_in cx.now).rules) }
    requires untimed { is_untimed (bounds_in table.now) rule ≡ true }
    requires missing { IsMissing (program_in cx.now) (bounds_in table.now) cx.now.pivots cx.now.empties.items rule
        asked }
    requires few { length gaps.old.items + 1 < 2 ^ 32 }
    requires hold { All (λ g. GapHolds (program_in cx.now) (forms_at (program_in cx.now)) (gap_of g)) gaps.old.items }
    ensures grown { IfOk result (λ entry. IsGrown gaps.old.items gaps.new.items) }
    ensures said { IfOk result (λ entry. IsTimeOver (searches_of_program (program_in cx.now) cx.now.pivots)
        (program_in cx.now) (bounds_in table.now) rule (time_of gaps.new.items entry)) }
    ensures gap { IfOk result (λ entry. HasItsGap (length gaps.new.items) entry) }
    ensures hold { OnOk result (All (λ g. GapHolds (program_in cx.now) (forms_at (program_in cx.now)) (gap_of g))
        gaps.new.items) }
    ensures carries { IfOk result (λ entry. CarriesTime (number_at table.now) rule entry) }
    ensures in_order { IfOk result (λ entry. AreGapsInOrder (length gaps.old.items) (entry ∷ [])
        (length gaps.new.items)) }
{
    let AnsweredRankQuestion { answer, .. } = asked;
    match answer {
        RankAnswer::Ranked(node) => match rank_time(cx.alloc, cx.program, &node, table)? {
            RewriteResult::Large { nodes } => Ok(TimeEntry::Large { nodes }),
            RewriteResult::Rewritten(_) => unreachable!(),
        },
        RankAnswer::NoRank(gap) => {
            gaps.push(gap)?;
            Ok(TimeEntry::Gap {
                gap: gaps.len() as u32,
            })
        }
        RankAnswer::OutOfLimits(limit_hit) => Ok(TimeEntry::OutOfLimits(limit_hit)),
    }
}
