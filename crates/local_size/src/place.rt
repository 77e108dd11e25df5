//! Searches for bounds on the new value at a place after one step.

ghost use Rattle.std.specs.Prelude.{◌≡◌, ◌≤◌, length, IfOk};
ghost use Rattle.guard_prep.specs.Views.{prepared_of};
ghost use Rattle.cert_types.specs.Views.{result_variable_of};
ghost use Rattle.cert_types.specs.declared.answer.Question.TheVariants as questions;
ghost use Rattle.rule_questions.specs.EmptyAnswers.{IsPrepared, SaysEmpty};
ghost use Rattle.local_size.specs.Asking.{side_of, IsUnboundedResult};
ghost use Rattle.local_size.specs.LocalAnswers.{local_answer_of, HasHitLimit, IsLocal};
ghost use Rattle.outcome.specs.Views.{side_by};

use crate::answer::LocalAnswer;
use crate::kinds::kinds_of;
use crate::polynomial::{is_nonlinear, is_polynomial};
use crate::search::SideAnswer;
use crate::side::{Side, search_side};
use cert_types::{
    GuardFeasibility, LimitCause, LimitHit, LocalBound, Question, ResultVariable, SideBound,
    copied_scaled,
};
use guard_prep::RuleRows;
use outcome::UnboundedSide;
use poly_terms::Memory;
use std::alloc::Global;

/// The bound on the new value at a place after one step, as two side bounds: one is never below the value, the other
/// never below its negation. If the update is a polynomial of degree 2 or more in left variables only, both are that
/// polynomial with absolute coefficients. Otherwise each side bound is the first form in this order that the rule's
/// rows imply: a constant; the left argument at the same place, then its negation; each other left argument and its
/// negation; an affine form in the left arguments. Within a kind, it has least weight. For an update of degree 2 or
/// more with a free variable only the last kind is tried. `UnboundedSide` has a ray along which the value on a side
/// increases, the upper side first, while no left argument changes, with the point of the rule. `OutOfLimits` has the
/// limit that a linear program hits within this many pivots or, if an affine form isn't found, that of the rule's
/// feasibility question. Each is returned exactly in its case.
///
/// # Errors
///
/// `Memory` if an allocation fails.
pub fn local(
    alloc: Global,
    prepared_rule: &RuleRows,
    result_variable: ResultVariable,
    empty: &GuardFeasibility,
    pivots: u32,
) -> Result<LocalAnswer, Memory>
    requires prepared { IsPrepared prepared_rule.now }
    requires place { (1 ≤ result_variable.place) × (result_variable.place ≤ length prepared_rule.now.new_values.items) }
    requires may_run { ¬ SaysEmpty empty.now }
    ensures { IfOk result (λ a. IsLocal (prepared_of prepared_rule.now) (result_variable_of result_variable) pivots empty.now (local_answer_of a)) }
{
    let by_itself = is_polynomial(prepared_rule, result_variable.place);
    if by_itself {
        return Ok(LocalAnswer::Bound(LocalBound {
            up: SideBound::Poly,
            low: SideBound::Poly,
        }));
    }
    let nonlinear = is_nonlinear(prepared_rule, result_variable.place);
    let kinds = kinds_of(alloc, nonlinear, prepared_rule.left, result_variable.place)?;
    match search_side(
        alloc,
        prepared_rule,
        Side::Up,
        result_variable.place,
        &kinds,
        pivots,
    )? {
        SideAnswer::OutOfLimits(cause) => Ok(hit_limit(result_variable, cause)),
        SideAnswer::SideBound(up) => match search_side(
            alloc,
            prepared_rule,
            Side::Low,
            result_variable.place,
            &kinds,
            pivots,
        )? {
            SideAnswer::OutOfLimits(cause) => Ok(hit_limit(result_variable, cause)),
            SideAnswer::SideBound(low) => Ok(LocalAnswer::Bound(LocalBound { up, low })),
            SideAnswer::UnboundedSide(ray) => unbounded_result(alloc, Side::Low, ray, empty),
        },
        SideAnswer::UnboundedSide(ray) => match search_side(
            alloc,
            prepared_rule,
            Side::Low,
            result_variable.place,
            &kinds,
            pivots,
        )? {
            SideAnswer::OutOfLimits(cause) => Ok(hit_limit(result_variable, cause)),
            SideAnswer::SideBound(_) | SideAnswer::UnboundedSide(_) => unbounded_result(
                alloc,
                Side::Up,
                ray,
                empty,
            ),
        },
    }
}

// A question of the place exceeded a limit.
fn hit_limit(result_variable: ResultVariable, cause: LimitCause) -> LocalAnswer
    ensures { local_answer_of result
        ≡ HasHitLimit (record { question = questions.Local result_variable.rule result_variable.place; cause = cause }) }
{
    LocalAnswer::OutOfLimits(LimitHit {
        question: Question::Local {
            rule: result_variable.rule,
            place: result_variable.place,
        },
        cause,
    })
}

// The answer for a side without a form: if the rule has a point it is unbounded; if not, the feasibility question hit a
// limit.
fn unbounded_result(
    alloc: Global,
    side: Side,
    ray: Vec<i64>,
    empty: &GuardFeasibility,
) -> Result<LocalAnswer, Memory>
    requires { ¬ SaysEmpty empty.now }
    ensures { IfOk result (λ a. IsUnboundedResult (side_of side) ray.items empty.now (local_answer_of a)) }
{
    match empty {
        GuardFeasibility::Empty(_) => unreachable!(),
        GuardFeasibility::Point(point) => {
            let kept = copied_scaled(alloc, point)?;
            Ok(LocalAnswer::UnboundedSide(UnboundedSide {
                up: is_up(side),
                ray,
                kept,
            }))
        }
        GuardFeasibility::OutOfLimits(limit_hit) => Ok(LocalAnswer::OutOfLimits(*limit_hit)),
    }
}

// Whether the side is the upper side.
fn is_up(side: Side) -> bool
    ensures { side_by result ≡ side_of side }
{
    match side {
        Side::Up => true,
        Side::Low => false,
    }
}
