//! What a rule takes from a place of a symbol at a scaled point, and what it adds there.

ghost use Rattle.std.specs.Prelude.{◌≡◌, ◌≤◌, unsigned_abs};
ghost use Rattle.std.specs.List.{All};
ghost use Rattle.farkas_cert.specs.linear_forms.Limits.{point_limit};
ghost use Rattle.farkas_cert.specs.linear_forms.RuleQuestions.{at_source, at_target, before_rule, after_rule};
ghost use Rattle.farkas_cert.specs.Sizes.{HasRowNumbers};
ghost use Rattle.its_model.specs.Views.{program_of};
ghost use Rattle.cert_types.specs.cert_program.RankedSets.{forms_at};
ghost use Rattle.cert_types.specs.cert_rules.AcceptsPlain.{IsRule};
ghost use Rattle.cert_types.specs.cert_rules.GapChecks.{value_at};
ghost use Rattle.cert_types.specs.AnswerViews.{scaled_of};
ghost use Rattle.gap_checks.specs.GapTests.{forms_by, IsNear, coefficient_at, near_value_limit};
ghost use Rattle.gap_checks.specs.GapBalances.{ArePrepared, program};

use crate::gap_points::prepared_rule_at;
use crate::program_rules::Rules;
use cert_types::{source_of, target_of};
use farkas_cert::{Scaled, row_value};
use guard_prep::RuleRows;
use its_model::Program;

// The part of a place at a scaled point, and for place 0 the denominator.
fn left_part(z: &Scaled, place: u32) -> i128
    requires { IsNear (scaled_of z.now) }
    ensures value { result ≡ value_at (before_rule place) (scaled_of z.now) }
    ensures size { unsigned_abs result ≤ point_limit }
{
    if place == 0 {
        return i128::from(z.den);
    }
    match z.parts.get(place as usize - 1) {
        Some(part) => i128::from(*part),
        None => 0,
    }
}

// The new value of a place at a scaled point, and for place 0 the denominator.
fn new_value(prepared_rules: &[RuleRows], rule: u32, z: &Scaled, place: u32) -> i128
    requires new_values { All HasRowNumbers (forms_by prepared_rules.now rule).new_values }
    requires near { IsNear (scaled_of z.now) }
    ensures value { result ≡ value_at (after_rule (forms_by prepared_rules.now rule) place) (scaled_of z.now) }
    ensures size { unsigned_abs result ≤ near_value_limit }
{
    if place == 0 {
        return i128::from(z.den);
    }
    match prepared_rule_at(prepared_rules, rule) {
        Some(prepared_rule) => match prepared_rule.new_values.get(place as usize - 1) {
            Some(row) => row_value(row, z),
            None => 0,
        },
        None => 0,
    }
}

/// What leaves a place of a symbol by a rule at a scaled point.
pub(crate) fn leaving(p: &Program, rule: u32, z: &Scaled, symbol: u32, place: u32) -> i128
    requires rule { IsRule (program_of p.now) rule }
    requires near { IsNear (scaled_of z.now) }
    ensures value { result
        ≡ value_at (at_source (forms_at (program_of p.now) rule) (coefficient_at symbol place)) (scaled_of z.now) }
    ensures size { unsigned_abs result ≤ point_limit }
{
    match source_of(p, rule) {
        Some(source) => if source == symbol {
            left_part(z, place)
        } else {
            0
        },
        None => 0,
    }
}

/// What arrives at a place of a symbol by a rule from a scaled point.
pub(crate) fn arriving(rules: &Rules, rule: u32, z: &Scaled, symbol: u32, place: u32) -> i128
    requires rows { ArePrepared rules.now }
    requires new_values { All HasRowNumbers (forms_by rules.now.prepared_rules.now rule).new_values }
    requires rule { IsRule (program rules.now) rule }
    requires near { IsNear (scaled_of z.now) }
    ensures value { result
        ≡ value_at (at_target (forms_at (program rules.now) rule) (coefficient_at symbol place)) (scaled_of z.now) }
    ensures size { unsigned_abs result ≤ near_value_limit }
{
    match target_of(rules.program, rule) {
        Some(target) => if target == symbol {
            new_value(rules.prepared_rules, rule, z, place)
        } else {
            0
        },
        None => 0,
    }
}
