//! Searches for a function that ranks a rule of a set.

ghost use Rattle.std.specs.Prelude.{IfOk};
ghost use Rattle.its_model.specs.Valid.{IsValid};
ghost use Rattle.its_model.specs.Views.{program_of};
ghost use Rattle.cert_types.specs.Composing.{AreRowsOf};
ghost use Rattle.rule_questions.specs.ProgramQuestions.{ranked_set, places_of};
ghost use Rattle.rank_search.specs.RankAnswers.{IsRuleSet, MayAllRun, IsRankAnswer};
ghost use Rattle.rule_questions.specs.RuleAnswers.{AreEmptyAnswers};

use crate::answer::RankAnswer;
use crate::coefficients::coefficients_of;
use crate::found::rank_node;
use crate::gap::{first_hit_limit, gap_of_dual};
use crate::problem::rank_problem;
use crate::symbols::symbols_of_set;
use cert_types::{GuardFeasibility, LimitHit, Question};
use guard_prep::RuleRows;
use its_model::Program;
use poly_terms::Memory;
use simplex_core::{Answer, solve_scaled};
use std::alloc::Global;

/// Finds an affine function with coefficient 0 at every shut place that ranks the strict rule over a set of rules; it
/// has least weight if each rule of the set has a point. `Ranked` has the function at which the linear program's
/// sequence of tableaux ends, with multipliers that certify it. `NoRank` has a gap, which holds (`found_gaps_hold`): it
/// is read off the dual, with the points of the rules of the set. `OutOfLimits` has the limit that the linear program
/// hits within this many pivots or, if it has no solution, that of the first rule of the set whose feasibility question
/// hit a limit.
///
/// # Errors
///
/// `Memory` if an allocation fails.
pub fn find_rank(
    alloc: Global,
    p: &Program,
    prepared_rules: &[RuleRows],
    set: &[u32],
    strict: u32,
    shut: &[(u32, u32)],
    empties: &[GuardFeasibility],
    pivots: u32,
) -> Result<RankAnswer, Memory>
    requires valid { IsValid (program_of p.now) }
    requires rows { AreRowsOf prepared_rules.now (program_of p.now) }
    requires rules { IsRuleSet (program_of p.now) set.now strict }
    requires answers { AreEmptyAnswers (program_of p.now) pivots empties.now }
    requires may_run { MayAllRun set.now empties.now }
    ensures { IfOk result (λ answer. IsRankAnswer (ranked_set (program_of p.now) set.now strict (places_of shut.now))
        (places_of shut.now) pivots empties.now answer) }
{
    let symbols = symbols_of_set(alloc, p, set)?;
    let coefficients = coefficients_of(alloc, p, &symbols, shut)?;
    let problem = rank_problem(alloc, p, prepared_rules, set, strict, shut, &coefficients)?;
    match solve_scaled(alloc, &problem, pivots)? {
        Answer::Solution(solution) => {
            let node = rank_node(
                alloc,
                p,
                prepared_rules,
                set,
                strict,
                shut,
                &symbols,
                coefficients.len(),
                &solution,
            )?;
            Ok(RankAnswer::Ranked(node))
        }
        Answer::Dual(dual) => match first_hit_limit(set, empties) {
            Some(limit_hit) => Ok(RankAnswer::OutOfLimits(limit_hit)),
            None => {
                let gap = gap_of_dual(
                    alloc,
                    prepared_rules,
                    set,
                    strict,
                    shut,
                    empties,
                    &dual.numbers,
                )?;
                Ok(RankAnswer::NoRank(gap))
            }
        },
        Answer::OutOfLimits(cause) => Ok(RankAnswer::OutOfLimits(LimitHit {
            question: Question::Rank { rule: strict },
            cause,
        })),
    }
}
