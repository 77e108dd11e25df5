//! Decides whether the rows of a rule have a point.

ghost use Rattle.std.specs.Prelude.{IfOk};
ghost use Rattle.simplex_core.specs.linear_forms.RuleQuestions.{empty_question};
ghost use Rattle.guard_prep.specs.Views.{prepared_of};
ghost use Rattle.rule_questions.specs.EmptyAnswers.{IsPrepared, IsEmptyAnswer};
ghost use Rattle.rule_questions.specs.ProgramQuestions.{forms_of};
ghost use Rattle.rule_questions.specs.Programs.{IsProblemOf};

use cert_types::{EmptyNode, GuardFeasibility, LimitHit, Question};
use guard_prep::RuleRows;
use lp_builder::Builder;
use poly_terms::Memory;
use rule_questions::{constant_row, element_from, multipliers_from};
use simplex_core::{Answer, Problem, solve_scaled};
use std::alloc::Global;

/// Decides whether the rows of a rule have a rational point, by the linear program for multipliers of the rows that
/// certify that they have none. `Empty` has such multipliers, `Point` a point whose numbers are at most 2^45 in
/// absolute value, and `OutOfLimits` the limit that the linear program exceeds within this many pivots; each is
/// returned exactly in its case.
///
/// # Errors
///
/// `Memory` if an allocation fails.
pub fn guard_feasibility(
    alloc: Global,
    prepared_rule: &RuleRows,
    rule: u32,
    pivots: u32,
) -> Result<GuardFeasibility, Memory>
    requires { IsPrepared prepared_rule.now }
    ensures { IfOk result (λ answer. IsEmptyAnswer (prepared_of prepared_rule.now) rule pivots answer) }
{
    let problem = empty_problem(alloc, prepared_rule)?;
    match solve_scaled(alloc, &problem, pivots)? {
        Answer::Solution(solution) => {
            let multipliers = multipliers_from(
                alloc,
                &solution.numbers,
                0,
                prepared_rule.rows.len(),
            )?;
            Ok(GuardFeasibility::Empty(EmptyNode { rule, multipliers }))
        }
        Answer::Dual(dual) => {
            let point = element_from(alloc, &dual.numbers, 0, prepared_rule.unknowns as usize)?;
            Ok(GuardFeasibility::Point(point))
        }
        Answer::OutOfLimits(cause) => Ok(GuardFeasibility::OutOfLimits(LimitHit {
            question: Question::Empty { rule },
            cause,
        })),
    }
}

// The problem that asks whether the rows have a point: whether -1 follows from them.
fn empty_problem(alloc: Global, prepared_rule: &RuleRows) -> Result<Problem, Memory>
    requires { IsPrepared prepared_rule.now }
    ensures { IfOk result (λ problem. IsProblemOf (empty_question (forms_of 0 0 (prepared_of prepared_rule.now)))
        problem) }
{
    let mut builder = Builder::new(alloc, 0);
    let minus_one = constant_row(alloc, -1);
    builder.add_group(prepared_rule.unknowns, &prepared_rule.rows, &[], &minus_one)?;
    builder.finish(alloc, &[])
}
