//! One side of a place.

ghost use Rattle.std.specs.Prelude.{◌≡◌, ◌≤◌, length, map, IfOk};
ghost use Rattle.guard_prep.specs.Views.{prepared_of};
ghost use Rattle.rule_questions.specs.EmptyAnswers.{IsPrepared};
ghost use Rattle.local_size.specs.Asking.{kind_of, side_of, side_outcome_of};
ghost use Rattle.local_size.specs.LocalAnswers.{SideHasResult};
ghost use Rattle.local_size.specs.Places.{kinds_of as kinds_asked};

use crate::kinds::Kind;
use crate::rows::negated;
use crate::search::{SideAnswer, search_kinds};
use guard_prep::RuleRows;
use poly_terms::Memory;
use std::alloc::Global;

/// A side of a new value: the upper side bounds the value, the lower side its negation.
#[derive(Clone, Copy, Debug, PartialEq, Eq)]
pub enum Side {
    Up,
    Low,
}

/// The result of the questions for a side of a place: a form that is at least the new value, or its negation on the
/// lower side, of the first kind that has one.
pub(crate) fn search_side(
    alloc: Global,
    prepared_rule: &RuleRows,
    side: Side,
    place: u32,
    kinds: &[Kind],
    pivots: u32,
) -> Result<SideAnswer, Memory>
    requires prepared { IsPrepared prepared_rule.now }
    requires place { (1 ≤ place) × (place ≤ length prepared_rule.now.new_values.items) }
    requires kinds { map kind_of kinds.now ≡ kinds_asked (prepared_of prepared_rule.now) place }
    ensures { IfOk result (λ answer.
        SideHasResult (prepared_of prepared_rule.now) place pivots (side_of side) (side_outcome_of answer)) }
{
    let value = &prepared_rule.new_values[place as usize - 1];
    match side {
        Side::Up => search_kinds(alloc, prepared_rule, value, kinds, pivots),
        Side::Low => {
            let negation = negated(alloc, value)?;
            search_kinds(alloc, prepared_rule, &negation, kinds, pivots)
        }
    }
}
