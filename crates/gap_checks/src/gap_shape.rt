//! Checks the shape of a gap.

ghost use Rattle.std.specs.Prelude.{◌≡◌, ◌↔◌, ◌≤◌, ℕ, length, map, true, IsTrue, nat_abs};
ghost use Rattle.std.specs.List.{All, AllByRecursion};
ghost use Rattle.farkas_cert.specs.linear_forms.Limits.{point_limit};
ghost use Rattle.its_model.specs.Views.{program_of};
ghost use Rattle.cert_types.specs.cert_program.RankedSets.{forms_at};
ghost use Rattle.cert_types.specs.cert_rules.AcceptsPlain.{IsRule};
ghost use Rattle.cert_types.specs.cert_rules.GapChecks.{HasGapShape, IsGapPoint};
ghost use Rattle.cert_types.specs.cert_rules.Numbers.{IsAscending};
ghost use Rattle.cert_types.specs.AnswerViews.{scaled_of, gap_of};
ghost use Rattle.cert_types.specs.Composing.{AreRowsOf};
ghost use Rattle.gap_checks.specs.GapTests.{forms_by, HaveGapPoints, IsGapSet};

use crate::gap_points::prepared_rule_at;
use crate::rule_numbers::{are_rules, ascends};
use cert_types::{Gap, has_number};
use farkas_cert::Scaled;
use guard_prep::RuleRows;
use its_model::Program;

// The most that a part of a point or its denominator may be in absolute value.
const LIMIT: u64 = 1 << 45;

// Whether the set ascends, has only numbers of rules and holds the strict rule.
fn is_gap_set(p: &Program, g: &Gap) -> bool
    ensures { IsTrue result ↔ IsGapSet (program_of p.now) (gap_of g.now) }
{
    ascends(&g.set) && are_rules(p, &g.set) && has_number(&g.set, g.rule)
}

// Whether the parts are within the limit of points.
fn are_parts(parts: &[i64]) -> bool
    ensures { IsTrue result ↔ All (λ x. nat_abs x ≤ point_limit) parts.now }
{
    for part in parts {
        if part.unsigned_abs() > LIMIT {
            return false;
        }
    }
    true
}

// How many unknowns a rule has.
fn unknowns_at(prepared_rules: &[RuleRows], rule: u32) -> usize
    ensures { result ≡ (forms_by prepared_rules.now rule).unknowns }
{
    match prepared_rule_at(prepared_rules, rule) {
        Some(prepared_rule) => prepared_rule.unknowns as usize,
        None => 0,
    }
}

// Whether a scaled point has a part for each unknown of a rule, and numbers within the limit.
fn is_gap_point(prepared_rules: &[RuleRows], rule: u32, z: &Scaled) -> bool
    ensures { IsTrue result ↔ IsGapPoint (forms_by prepared_rules.now rule) (scaled_of z.now) }
{
    z.parts.len() == unknowns_at(prepared_rules, rule) && z.den <= LIMIT && are_parts(&z.parts)
}

// Whether there is a scaled point for each rule of a set, with a part for each of the rule's unknowns and numbers
// within the limit.
fn are_gap_points(prepared_rules: &[RuleRows], set: &[u32], zs: &[Scaled]) -> bool
    requires { IsAscending set.now }
    ensures { IsTrue result ↔ HaveGapPoints prepared_rules.now set.now zs.now }
{
    if zs.len() != set.len() {
        return false;
    }
    for i in 0..set.len() {
        let fits = is_gap_point(prepared_rules, set[i], &zs[i]);
        if !fits {
            return false;
        }
    }
    true
}

/// Whether the shape of a gap is right.
pub(crate) fn has_gap_shape(p: &Program, prepared_rules: &[RuleRows], g: &Gap) -> bool
    requires { AreRowsOf prepared_rules.now (program_of p.now) }
    ensures { IsTrue result ↔ HasGapShape (program_of p.now) (forms_at (program_of p.now)) (gap_of g.now) }
{
    if !is_gap_set(p, g) {
        return false;
    }
    if !are_gap_points(prepared_rules, &g.set, &g.moves) {
        return false;
    }
    if !are_gap_points(prepared_rules, &g.set, &g.kept) {
        return false;
    }
    is_gap_point(prepared_rules, g.rule, &g.floor)
}
