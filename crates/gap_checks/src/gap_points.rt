//! Finds the first point of a gap that isn't on the rows of its rule.

ghost use Rattle.std.specs.Prelude.{◌≡◌, ◌↔◌, length, map, All, IsTrue, MatchOption, pos, ◌≤ℤ◌};
ghost use Rattle.std.specs.List.{AllByRecursion};
ghost use Rattle.farkas_cert.specs.Sizes.{HasRowNumbers};
ghost use Rattle.cert_types.specs.cert_rules.GapChecks.{MeetsAt, IsPointOf, point_of};
ghost use Rattle.cert_types.specs.AnswerViews.{scaled_of};
ghost use Rattle.gap_checks.specs.GapTests.{prepared_rule_in, forms_by, optional_prepared_rule, IsNear, AreNearPoints};
ghost use Rattle.gap_checks.specs.GapTests.{HaveSmallRows, IsFirstFailing};

use farkas_cert::{Scaled, on_rows};
use guard_prep::RuleRows;

/// The prepared rows of a rule; rules count from 1.
pub(crate) fn prepared_rule_at(prepared_rules: &[RuleRows], rule: u32) -> Option<&RuleRows>
    ensures { optional_prepared_rule result ≡ prepared_rule_in prepared_rules.now rule }
{
    if rule == 0 {
        return None;
    }
    prepared_rules.get(rule as usize - 1)
}

/// Whether a scaled point is a point or a ray of the rows of a rule.
pub(crate) fn is_met(prepared_rules: &[RuleRows], rule: u32, z: &Scaled) -> bool
    requires rows { All HasRowNumbers (forms_by prepared_rules.now rule).rows }
    requires near { IsNear (scaled_of z.now) }
    ensures { IsTrue result ↔ MeetsAt (forms_by prepared_rules.now rule).rows (scaled_of z.now) }
{
    match prepared_rule_at(prepared_rules, rule) {
        Some(prepared_rule) => on_rows(&prepared_rule.rows, z),
        None => true,
    }
}

/// The first rule of the set whose move is neither a point nor a ray of its rows.
pub(crate) fn first_wrong_move(
    prepared_rules: &[RuleRows],
    set: &[u32],
    moves: &[Scaled],
) -> Option<u32>
    requires rows { HaveSmallRows prepared_rules.now }
    requires near { AreNearPoints set.now (map scaled_of moves.now) }
    ensures { MatchOption result
        (AllByRecursion (λ t. MeetsAt (forms_by prepared_rules.now t).rows
        (point_of set.now (map scaled_of moves.now) t)) set.now)
        (λ u. IsFirstFailing (λ t. MeetsAt (forms_by prepared_rules.now t).rows
        (point_of set.now (map scaled_of moves.now) t)) set.now u) }
{
    for i in 0..set.len() {
        let met = is_met(prepared_rules, set[i], &moves[i]);
        if !met {
            return Some(set[i]);
        }
    }
    None
}

// Whether a scaled point is a point of the rows of a rule, not a ray.
fn is_kept(prepared_rules: &[RuleRows], rule: u32, z: &Scaled) -> bool
    requires rows { All HasRowNumbers (forms_by prepared_rules.now rule).rows }
    requires near { IsNear (scaled_of z.now) }
    ensures { IsTrue result ↔ IsPointOf (forms_by prepared_rules.now rule).rows (scaled_of z.now) }
{
    if z.den == 0 {
        return false;
    }
    is_met(prepared_rules, rule, z)
}

/// The first rule of the set whose kept point isn't a point of its rows; a ray isn't one.
pub(crate) fn first_not_kept(
    prepared_rules: &[RuleRows],
    set: &[u32],
    kept: &[Scaled],
) -> Option<u32>
    requires rows { HaveSmallRows prepared_rules.now }
    requires near { AreNearPoints set.now (map scaled_of kept.now) }
    ensures { MatchOption result
        (AllByRecursion (λ t. IsPointOf (forms_by prepared_rules.now t).rows
        (point_of set.now (map scaled_of kept.now) t)) set.now)
        (λ u. IsFirstFailing (λ t. IsPointOf (forms_by prepared_rules.now t).rows
        (point_of set.now (map scaled_of kept.now) t)) set.now u) }
{
    for i in 0..set.len() {
        let is_point = is_kept(prepared_rules, set[i], &kept[i]);
        if !is_point {
            return Some(set[i]);
        }
    }
    None
}

/// The denominator of the point of a rule of the set.
pub(crate) fn den_of(set: &[u32], points: &[Scaled], rule: u32) -> u64
    requires { length points.now ≡ length set.now }
    ensures { result ≡ (point_of set.now (map scaled_of points.now) rule).den }
{
    for i in 0..set.len() {
        if set[i] == rule {
            return points[i].den;
        }
    }
    0
}
