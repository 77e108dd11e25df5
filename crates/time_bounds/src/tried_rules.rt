//! The times of a round: tries each rule without a time over what was known before.

ghost use Rattle.std.specs.Prelude.{◌≡◌, ◌≤◌, length, IfOk, OnOk, IfSome, true};
ghost use Rattle.bound_fixpoint.specs.Keys.{is_untimed};
ghost use Rattle.size_bounds.specs.Tables.{bounds_in};
ghost use Rattle.time_bounds.specs.Parts.{AreParts};
ghost use Rattle.time_bounds.specs.Questions.{AnswersQuestion, IsAsked, AreAnsweredFrom, IsTable, BelongsTogether, program_in};
ghost use Rattle.time_bounds.specs.TriedRules.{IsTried, AreTried};

use crate::asking::{AnsweredRankQuestion, ask};
use crate::context::Context;
use crate::parts::{Parts, parts_of};
use crate::premises::rank_premises;
use bound_expr::Bound;
use bound_table::RewriteResult;
use cert_types::{RankNode, ResultVariable, rank_time};
use model::Memory;
use rank_search::RankAnswer;
use size_bounds::Table;

/// The result of a round for a rule.
#[derive(Drop)]
pub(crate) enum RuleAttempt {
    /// The rule already had a time.
    Known,
    /// A function ranks it, and with the bounds of these keys the node composes this time.
    Found {
        node: RankNode,
        premises: Vec<ResultVariable>,
        bound: Bound,
    },
    /// The rule has no time, by this answer.
    Missing(AnsweredRankQuestion),
}

/// Tries each rule without a time over what is known, in order. `before` has for each rule its query of the round
/// before, if there was one.
pub(crate) fn try_rules(
    cx: &Context,
    table: &Table,
    before: Vec<Option<AnsweredRankQuestion>>,
) -> Result<Vec<RuleAttempt>, Memory>
    requires ready { BelongsTogether cx.now }
    requires table { IsTable (program_in cx.now) table.now cx.now.empties.items }
    requires one_each { length before.items ≡ length cx.now.program.now.rules.items }
    requires kept { AreAnsweredFrom (program_in cx.now) cx.now.pivots cx.now.empties.items 1 before.items }
    ensures one_each { IfOk result (λ tries. length tries.items ≡ length cx.now.program.now.rules.items) }
    ensures tried { IfOk result (λ tries. AreTried (program_in cx.now) (bounds_in table.now) cx.now.pivots
        cx.now.empties.items 1 tries.items) }
{
    let mut parts = parts_of(cx, table)?;
    let mut tries = Vec::new(cx.alloc);
    for asked in before {
        let rule = tries.len() as u32 + 1;
        tries.push(try_rule(cx, table, &mut parts, rule, asked)?)?;
    }
    Ok(tries)
}

// Tries a rule, where it has no time.
fn try_rule(
    cx: &Context,
    table: &Table,
    parts: &mut Parts,
    rule: u32,
    before: Option<AnsweredRankQuestion>,
) -> Result<RuleAttempt, Memory>
    requires ready { BelongsTogether cx.now }
    requires table { IsTable (program_in cx.now) table.now cx.now.empties.items }
    requires parts { AreParts (program_in cx.now) table.now parts.old }
    requires rule { (1 ≤ rule) × (rule ≤ length cx.now.program.now.rules.items) }
    requires kept { IfSome before (λ a. AnswersQuestion (program_in cx.now) cx.now.pivots cx.now.empties.items rule a) }
    ensures tried { IfOk result (λ x. IsTried (program_in cx.now) (bounds_in table.now) cx.now.pivots
        cx.now.empties.items rule x) }
    ensures parts { OnOk result (AreParts (program_in cx.now) table.now parts.new) }
{
    if !parts.untimed[rule as usize] {
        return Ok(RuleAttempt::Known);
    }
    let asked = ask(cx, table, parts, rule, before)?;
    try_answer(cx, table, rule, asked)
}

// The result of an answer: a time if it has a function and the composed time isn't too large.
fn try_answer(
    cx: &Context,
    table: &Table,
    rule: u32,
    asked: AnsweredRankQuestion,
) -> Result<RuleAttempt, Memory>
    requires ready { BelongsTogether cx.now }
    requires untimed { is_untimed (bounds_in table.now) rule ≡ true }
    requires asked { IsAsked (program_in cx.now) (bounds_in table.now) rule asked }
    requires answered { AnswersQuestion (program_in cx.now) cx.now.pivots cx.now.empties.items rule asked }
    ensures { IfOk result (λ x. IsTried (program_in cx.now) (bounds_in table.now) cx.now.pivots
        cx.now.empties.items rule x) }
{
    let AnsweredRankQuestion { set, shut, answer } = asked;
    match answer {
        RankAnswer::Ranked(node) => match rank_time(cx.alloc, cx.program, &node, table)? {
            RewriteResult::Rewritten(bound) => {
                let premises = rank_premises(cx.alloc, cx.program, &node)?;
                Ok(RuleAttempt::Found {
                    node,
                    premises,
                    bound,
                })
            }
            RewriteResult::Large { .. } => Ok(RuleAttempt::Missing(AnsweredRankQuestion {
                set,
                shut,
                answer: RankAnswer::Ranked(node),
            })),
        },
        RankAnswer::NoRank(gap) => Ok(RuleAttempt::Missing(AnsweredRankQuestion {
            set,
            shut,
            answer: RankAnswer::NoRank(gap),
        })),
        RankAnswer::OutOfLimits(limit_hit) => Ok(RuleAttempt::Missing(AnsweredRankQuestion {
            set,
            shut,
            answer: RankAnswer::OutOfLimits(limit_hit),
        })),
    }
}
