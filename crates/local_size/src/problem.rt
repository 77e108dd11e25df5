//! Builds the problem of one kind of form.

ghost use Rattle.std.specs.Prelude.{◌≡◌, ◌+◌, ◌<◌, ◌^◌, ◌++◌, [], ◌∷◌, nat_eq, if◌then◌else◌, length, map, IfOk};
ghost use Rattle.std.specs.List.{range_with_len};
ghost use Rattle.simplex_core.specs.linear_forms.RuleQuestions.{before_rule};
ghost use Rattle.cert_types.specs.rule_forms.Questions.{question_of, IsKindOf};
ghost use Rattle.cert_types.specs.rule_forms.SoughtParts.{sought_places};
ghost use Rattle.guard_prep.specs.Views.{prepared_of};
ghost use Rattle.poly_terms.specs.Views.{form_of};
ghost use Rattle.lp_builder.specs.Descriptions.{goal_forms, AreParameters};
ghost use Rattle.rule_questions.specs.EmptyAnswers.{IsPrepared};
ghost use Rattle.rule_questions.specs.Programs.{IsProblemOf};
ghost use Rattle.local_size.specs.Asking.{kind_of, IsValue, AreWritableWithin};
ghost use Rattle.local_size.specs.Places.{local_forms};

use crate::kinds::Kind;
use crate::rows::{argument_row, fixed_row};
use guard_prep::RuleRows;
use lp_builder::{Builder, Cost, Goal};
use poly_terms::{Memory, Row};
use rule_questions::difference;
use simplex_core::Problem;
use std::alloc::Global;

/// The problem of finding a form of a kind that is at least a value on the points of a rule's rows.
pub(crate) fn kind_problem(
    alloc: Global,
    prepared_rule: &RuleRows,
    value: &Row,
    kind: Kind,
) -> Result<Problem, Memory>
    requires prepared { IsPrepared prepared_rule.now }
    requires value { IsValue prepared_rule.now (form_of value.now) }
    requires kind { IsKindOf prepared_rule.now.left (kind_of kind) }
    ensures { IfOk result (λ problem. IsProblemOf (question_of (local_forms (prepared_of prepared_rule.now)) (form_of value.now)
        (kind_of kind)) problem) }
{
    let places = places_of(alloc, prepared_rule.left, kind)?;
    let goals = goals_of(alloc, &places)?;
    let costs = costs_of(alloc, &places)?;
    let fixed = fixed_row(alloc, kind)?;
    let rest = difference(alloc, &fixed, value)?;
    let mut builder = Builder::new(alloc, places.len() as u32);
    builder.add_group(prepared_rule.unknowns, &prepared_rule.rows, &goals, &rest)?;
    builder.finish(alloc, &costs)
}

// The places whose coefficients are to be found; place 0 is the constant.
fn places_of(alloc: Global, left: u32, kind: Kind) -> Result<Vec<u32>, Memory>
    ensures { IfOk result (λ places. places.items ≡ sought_places left (kind_of kind)) }
{
    match kind {
        Kind::Number => places_and_constant(alloc, 0),
        Kind::Argument { .. } => Ok(Vec::new(alloc)),
        Kind::Affine => places_and_constant(alloc, left),
    }
}

// This many places, and then the constant.
fn places_and_constant(alloc: Global, count: u32) -> Result<Vec<u32>, Memory>
    ensures { IfOk result (λ places. places.items ≡ range_with_len 1 count ++ (0 ∷ [])) }
{
    let mut places = Vec::new(alloc);
    for before in 0..count {
        places.push(before + 1)?;
    }
    places.push(0)?;
    Ok(places)
}

// A goal for each place.
fn goals_of(alloc: Global, places: &[u32]) -> Result<Vec<Goal>, Memory>
    requires few { length places.now < 2 ^ 30 }
    ensures goals { IfOk result (λ goals. goal_forms 0 (length places.now) goals.items ≡ map before_rule places.now) }
    ensures listed { IfOk result (λ goals. AreParameters (length places.now) goals.items) }
    ensures writable { IfOk result (λ goals. AreWritableWithin places.now goals.items) }
{
    let mut goals = Vec::new(alloc);
    for (parameter, place) in places.iter().enumerate() {
        let form = argument_row(alloc, *place)?;
        goals.push(Goal {
            parameter: parameter as u32,
            form,
        })?;
    }
    Ok(goals)
}

// The cost of each place.
fn costs_of(alloc: Global, places: &[u32]) -> Result<Vec<Cost>, Memory>
    ensures sizes { IfOk result (λ costs. map (λ c. c.size) costs.items
        ≡ map (λ i. if nat_eq i 0 then 0 else 1) places.now) }
    ensures heights { IfOk result (λ costs. map (λ c. c.height) costs.items
        ≡ map (λ i. if nat_eq i 0 then 1 else 0) places.now) }
{
    let mut costs = Vec::new(alloc);
    for place in places {
        costs.push(cost_of(*place))?;
    }
    Ok(costs)
}

// The costs of a place: a left argument has a size, the constant a height.
fn cost_of(place: u32) -> Cost
    ensures size { result.size ≡ (if nat_eq place 0 then 0 else 1) }
    ensures height { result.height ≡ (if nat_eq place 0 then 1 else 0) }
{
    if place == 0 {
        Cost { size: 0, height: 1 }
    } else {
        Cost { size: 1, height: 0 }
    }
}
