//! Points and rays of the rows of rules, and the facts that they refute.

ghost use Rattle.std.specs.Prelude.{◌≡◌, ℕ, ◌*◌, ◌^◌, ◌≤◌, ◌↔◌, ◌-ℤ◌, ◌<ℤ◌, pos, map, length, true, List, IsTrue};
ghost use Rattle.std.specs.Prelude.{unsigned_abs};
ghost use Rattle.std.specs.List.{All};
ghost use Rattle.poly_terms.specs.linear_forms.Forms.{form_value};
ghost use Rattle.poly_terms.specs.linear_forms.Limits.{point_limit};
ghost use Rattle.poly_terms.specs.Views.{form_of};
ghost use Rattle.farkas_cert.specs.Scales.{numerators_of};
ghost use Rattle.farkas_cert.specs.Sizes.{AreParts};
ghost use Rattle.its_model.specs.Valid.{IsValid};
ghost use Rattle.its_model.specs.Views.{program_of};
ghost use Rattle.cert_types.specs.Composing.{AreRowsOf};
ghost use Rattle.rule_questions.specs.EmptyAnswers.{IsPrepared};
ghost use Rattle.rule_questions.specs.SmallForms.{IsSmall};
ghost use Rattle.location_facts.specs.declared.fact.LocFact.{LocFact as Fact};
ghost use Rattle.location_facts.specs.Elements.{IsMeasured, AreElements};
ghost use Rattle.location_facts.specs.Kept.{IsImpliedByAll};
ghost use Rattle.location_facts.specs.Rows.{value_after as after, row_after as goal_of};

use crate::fact::LocFact;
use crate::faults::product;
use farkas_cert::{Scaled, row_value};
use guard_prep::RuleRows;
use its_model::Program;
use poly_terms::Row;

/// A point or a ray of the combined rows of a rule, which is numbered from 1.
#[derive(Drop)]
pub(crate) struct Element {
    pub rule: u32,
    pub at: Scaled,
}

/// Whether one of the elements refutes a fact: at a point or ray of a rule into its symbol the fact is below 0 after
/// the rule. Then the rule doesn't imply the fact.
pub(crate) fn is_refuted(
    p: &Program,
    prepared_rules: &[RuleRows],
    elements: &[Element],
    fact: LocFact,
) -> bool
    requires valid { IsValid (program_of p.now) }
    requires rows { AreRowsOf prepared_rules.now (program_of p.now) }
    requires measured { All (IsMeasured (program_of p.now)) elements.now }
    ensures { result ≡ true → (pivots : ℕ) (kept : List Fact) → AreElements (program_of p.now) pivots kept elements.now
        → ¬ IsImpliedByAll (program_of p.now) pivots kept fact }
{
    for k in 0..elements.len() {
        let element = &elements[k];
        let number = element.rule as usize - 1;
        let rule = &p.rules[number];
        let prepared_rule = &prepared_rules[number];
        if refutes_fact(rule.target, prepared_rule, fact, &element.at) {
            return true;
        }
    }
    false
}

// Whether a rule leads to the symbol of a fact that is below 0 after the rule, at an element of the rule's unknowns.
fn refutes_fact(target: u32, prepared_rule: &RuleRows, fact: LocFact, at: &Scaled) -> bool
    requires prepared { IsPrepared prepared_rule.now }
    requires unknowns { length at.now.parts.items ≤ 128 }
    requires parts { AreParts at.now.parts.items }
    requires denominator { at.now.den ≤ point_limit }
    ensures { IsTrue result ↔
        ((target ≡ fact.symbol) × (form_value (goal_of (map form_of prepared_rule.now.new_values.items) fact)
        (numerators_of at.now) (pos at.now.den) <ℤ pos 0)) }
{
    target == fact.symbol && is_refuting(prepared_rule, fact, at)
}

// Whether a fact is below 0 after a rule, at an element of the rule's unknowns.
fn is_refuting(prepared_rule: &RuleRows, fact: LocFact, at: &Scaled) -> bool
    requires prepared { IsPrepared prepared_rule.now }
    requires unknowns { length at.now.parts.items ≤ 128 }
    requires parts { AreParts at.now.parts.items }
    requires denominator { at.now.den ≤ point_limit }
    ensures { IsTrue result ↔
        (form_value (goal_of (map form_of prepared_rule.now.new_values.items) fact) (numerators_of at.now)
        (pos at.now.den) <ℤ pos 0) }
{
    let plus = value_at(&prepared_rule.new_values, fact.plus, at);
    let minus = value_at(&prepared_rule.new_values, fact.minus, at);
    let least = product(i128::from(fact.least), at.den);
    is_below(plus, minus, least)
}

// Whether a number less another is below a third.
fn is_below(plus: i128, minus: i128, least: i128) -> bool
    requires plus { unsigned_abs plus ≤ 129 * 2 ^ 108 }
    requires minus { unsigned_abs minus ≤ 129 * 2 ^ 108 }
    ensures { IsTrue result ↔ ((plus -ℤ minus) <ℤ least) }
{
    plus - minus < least
}

// The value at a place after a rule with these new values, times the denominator, at an element of the rule's unknowns.
#[tactic(auto, using(crate::proofs::ElementRules::value_none, crate::proofs::ElementRules::value_missing, crate::proofs::ElementRules::new_numbers))]
fn value_at(new_values: &[Row], place: u32, at: &Scaled) -> i128
    requires small { All (λ r. IsSmall (form_of r)) new_values.now }
    requires unknowns { length at.now.parts.items ≤ 128 }
    requires parts { AreParts at.now.parts.items }
    requires denominator { at.now.den ≤ point_limit }
    ensures value { result ≡ form_value (after (map form_of new_values.now) place) (numerators_of at.now)
        (pos at.now.den) }
    ensures size { unsigned_abs result ≤ 129 * 2 ^ 108 }
{
    if place == 0 {
        return 0;
    }
    match new_values.get(place as usize - 1) {
        Some(row) => row_value(row, at),
        None => 0,
    }
}
