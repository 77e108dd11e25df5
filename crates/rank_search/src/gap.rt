//! Builds the gap from a dual of a rank question's linear program.

ghost use Rattle.std.specs.Prelude.{◌≡◌, ◌+◌, ◌≤◌, [], ◌∷◌, length, map, Some, option_map, IfOk, OnOk};
ghost use Rattle.std.specs.List.{All};
ghost use Rattle.simplex_core.specs.linear_forms.Forms.{at};
ghost use Rattle.simplex_core.specs.linear_forms.QuestionLaws.{after};
ghost use Rattle.cert_types.specs.AnswerViews.{scaled_of};
ghost use Rattle.rule_questions.specs.ProgramQuestions.{places_of};
ghost use Rattle.rule_questions.specs.RuleAnswers.{answer_for, point_in};
ghost use Rattle.rank_search.specs.RankAnswers.{first_limit_hit, points_of, HasPointFor};
ghost use Rattle.rule_questions.specs.GroupLines.{group_lines};
ghost use Rattle.rank_search.specs.Reading.{shape_at, shapes, IsGapRead};

use cert_types::{Gap, GuardFeasibility, LimitHit, copied_scaled};
use farkas_cert::Scaled;
use guard_prep::RuleRows;
use poly_terms::Memory;
use rule_questions::element_from;
use std::alloc::Global;

/// The limit hit of the first rule of the set whose feasibility question hit one.
pub(crate) fn first_hit_limit(set: &[u32], empties: &[GuardFeasibility]) -> Option<LimitHit>
    ensures { result ≡ first_limit_hit empties.now set.now }
{
    for rule in set {
        if let Some(GuardFeasibility::OutOfLimits(limit_hit)) = answer_at(empties, *rule) {
            return Some(*limit_hit);
        }
    }
    None
}

// The answer for a rule; rules are numbered from 1.
fn answer_at(empties: &[GuardFeasibility], rule: u32) -> Option<&GuardFeasibility>
    ensures { option_map (λ a. a.now) result ≡ answer_for empties.now rule }
{
    if rule == 0 {
        return None;
    }
    empties.get(rule as usize - 1)
}

/// The gap of a dual: the point or ray of each rule of the set and of the floor, from the lines in order, and the
/// points that the rules have.
pub(crate) fn gap_of_dual(
    alloc: Global,
    prepared_rules: &[RuleRows],
    set: &[u32],
    strict: u32,
    shut: &[(u32, u32)],
    empties: &[GuardFeasibility],
    numbers: &[i64],
) -> Result<Gap, Memory>
    requires points { All (HasPointFor empties.now) set.now }
    requires room { group_lines (shapes prepared_rules.now set.now strict) ≤ length numbers.now }
    ensures { IfOk result (λ gap. IsGapRead prepared_rules.now
        (record { set = set.now; strict = strict; shut = places_of shut.now }) empties.now numbers.now gap) }
{
    let mut next = 0;
    let moves = moves_of_dual(alloc, prepared_rules, set, numbers, &mut next)?;
    let floor = rule_element(alloc, prepared_rules, strict, numbers, next)?;
    Ok(Gap {
        rule: strict,
        set: Vec::from_slice(alloc, set)?,
        shut: Vec::from_slice(alloc, shut)?,
        moves,
        floor,
        kept: kept_points(alloc, set, empties)?,
    })
}

// The point or ray of each rule of the set, from the next line on; `next` is then the line after them.
fn moves_of_dual(
    alloc: Global,
    prepared_rules: &[RuleRows],
    set: &[u32],
    numbers: &[i64],
    next: &mut usize,
) -> Result<Vec<Scaled>, Memory>
    requires { next.old + group_lines (map (shape_at prepared_rules.now) set.now) ≤ length numbers.now }
    ensures moves { IfOk result (λ moves. map scaled_of moves.items
        ≡ points_of (after next.old (at numbers.now)) (map (shape_at prepared_rules.now) set.now)) }
    ensures next { OnOk result (next.new ≡ next.old + group_lines (map (shape_at prepared_rules.now) set.now)) }
{
    let mut moves = Vec::new(alloc);
    for rule in set {
        let element = rule_element(alloc, prepared_rules, *rule, numbers, *next)?;
        *next += element.parts.len() + 1;
        moves.push(element)?;
    }
    Ok(moves)
}

// The point or ray of a rule, from a line on.
fn rule_element(
    alloc: Global,
    prepared_rules: &[RuleRows],
    rule: u32,
    numbers: &[i64],
    start: usize,
) -> Result<Scaled, Memory>
    requires { start + group_lines (shape_at prepared_rules.now rule ∷ []) ≤ length numbers.now }
    ensures { IfOk result (λ z. scaled_of z ∷ []
        ≡ points_of (after start (at numbers.now)) (shape_at prepared_rules.now rule ∷ [])) }
{
    element_from(alloc, numbers, start, unknowns_at(prepared_rules, rule))
}

// How many unknowns a rule has; rules are numbered from 1.
fn unknowns_at(prepared_rules: &[RuleRows], rule: u32) -> usize
    ensures { result ≡ (shape_at prepared_rules.now rule).unknowns }
{
    if rule == 0 {
        return 0;
    }
    match prepared_rules.get(rule as usize - 1) {
        Some(prepared_rule) => prepared_rule.unknowns as usize,
        None => 0,
    }
}

// The points of the rules of the set, each of which has one.
fn kept_points(
    alloc: Global,
    set: &[u32],
    empties: &[GuardFeasibility],
) -> Result<Vec<Scaled>, Memory>
    requires { All (HasPointFor empties.now) set.now }
    ensures { IfOk result (λ kept. map (λ z. Some z) (map scaled_of kept.items)
        ≡ map (λ t. point_in (answer_for empties.now t)) set.now) }
{
    let mut kept = Vec::new(alloc);
    for rule in set {
        if let Some(GuardFeasibility::Point(point)) = answer_at(empties, *rule) {
            kept.push(copied_scaled(alloc, point)?)?;
        }
    }
    Ok(kept)
}
