//! Tries the questions of a side of a place, kind by kind.

ghost use Rattle.std.specs.Prelude.{◌≤◌, length, map, IfOk};
ghost use Rattle.std.specs.List.{All};
ghost use Rattle.cert_types.specs.rule_forms.Questions.{IsKindOf};
ghost use Rattle.guard_prep.specs.Views.{prepared_of};
ghost use Rattle.poly_terms.specs.Views.{form_of};
ghost use Rattle.rule_questions.specs.EmptyAnswers.{IsPrepared};
ghost use Rattle.local_size.specs.Asking.{kind_of, side_outcome_of, IsValue};
ghost use Rattle.local_size.specs.Places.{local_forms};
ghost use Rattle.local_size.specs.Sides.{HasResult, SearchHasResult};

use crate::kinds::Kind;
use crate::problem::kind_problem;
use crate::reading::side_bound_from;
use cert_types::{LimitCause, SideBound};
use guard_prep::RuleRows;
use poly_terms::{Memory, Row};
use rule_questions::element_from;
use simplex_core::{Answer, solve_scaled};
use std::alloc::Global;

/// The result of the questions for a side.
#[derive(Debug, PartialEq, Eq, Drop)]
pub enum SideAnswer {
    /// This side bound was found.
    SideBound(SideBound),
    /// No form of any kind is at least the value; along this ray the value increases, and no left argument changes.
    UnboundedSide(Vec<i64>),
    /// A linear program exceeded a limit.
    OutOfLimits(LimitCause),
}

/// Finds a form that is at least a value on the points of a rule's rows, of the first of these kinds that has one. The
/// search also ends at the first linear program that exceeds a limit.
pub(crate) fn search_kinds(
    alloc: Global,
    prepared_rule: &RuleRows,
    value: &Row,
    kinds: &[Kind],
    pivots: u32,
) -> Result<SideAnswer, Memory>
    requires prepared { IsPrepared prepared_rule.now }
    requires value { IsValue prepared_rule.now (form_of value.now) }
    requires some { 1 ≤ length kinds.now }
    requires kinds { All (λ k. IsKindOf prepared_rule.now.left (kind_of k)) kinds.now }
    ensures { IfOk result (λ answer. SearchHasResult (local_forms (prepared_of prepared_rule.now)) (form_of value.now) pivots
        (map kind_of kinds.now) (side_outcome_of answer)) }
{
    let Some((kind, others)) = kinds.split_first() else {
        unreachable!()
    };
    let answer = ask(alloc, prepared_rule, value, *kind, pivots)?;
    if others.is_empty() {
        return Ok(answer);
    }
    match answer {
        SideAnswer::UnboundedSide(_) => search_kinds(alloc, prepared_rule, value, others, pivots),
        SideAnswer::SideBound(side_bound) => Ok(SideAnswer::SideBound(side_bound)),
        SideAnswer::OutOfLimits(cause) => Ok(SideAnswer::OutOfLimits(cause)),
    }
}

// Asks which form of a kind is at least a value.
fn ask(
    alloc: Global,
    prepared_rule: &RuleRows,
    value: &Row,
    kind: Kind,
    pivots: u32,
) -> Result<SideAnswer, Memory>
    requires prepared { IsPrepared prepared_rule.now }
    requires value { IsValue prepared_rule.now (form_of value.now) }
    requires kind { IsKindOf prepared_rule.now.left (kind_of kind) }
    ensures { IfOk result (λ answer. HasResult (local_forms (prepared_of prepared_rule.now)) (form_of value.now) pivots
        (kind_of kind) (side_outcome_of answer)) }
{
    let problem = kind_problem(alloc, prepared_rule, value, kind)?;
    match solve_scaled(alloc, &problem, pivots)? {
        Answer::Solution(solution) => {
            let side_bound = side_bound_from(
                alloc,
                prepared_rule.left,
                prepared_rule.rows.len(),
                kind,
                &solution,
            )?;
            Ok(SideAnswer::SideBound(side_bound))
        }
        Answer::Dual(dual) => {
            let ray = element_from(alloc, &dual.numbers, 0, prepared_rule.unknowns as usize)?;
            Ok(SideAnswer::UnboundedSide(ray.parts))
        }
        Answer::OutOfLimits(cause) => Ok(SideAnswer::OutOfLimits(cause)),
    }
}
