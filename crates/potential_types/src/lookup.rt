//! Facts by their numbers, and the bounds that they state.

ghost use Rattle.std.specs.Prelude.{◌≡◌, [], ◌∷◌, Some, option_map, map};
ghost use Rattle.poly_terms.specs.Views.{poly_of};
ghost use Rattle.signed_bounds.specs.Views.{signed_of};
ghost use Rattle.potential_nodes.specs.Lookup.{numbered as fact_numbered};
ghost use Rattle.potential_nodes.specs.Facts.{sum_bound as bound_of_sum, peak_bound as bound_of_peak};
ghost use Rattle.potential_nodes.specs.Facts.{sum_bound_in, peak_bound_in};
ghost use Rattle.potential_nodes.specs.PlainPeaks.{size_in};
ghost use Rattle.potential_nodes.specs.Facts.{once_charge as charge_once, says_never as is_saying_never};
ghost use Rattle.potential_nodes.specs.Facts.{is_never as is_said_never};
ghost use Rattle.potential_types.specs.Views.{fact_view};
ghost use Rattle.potential_types.specs.Zeros.{is_zero_bound};

use crate::comparing::{is_once, is_only, same_polynomial};
use crate::facts::SignedFact;
use poly_terms::Poly;
use signed_bounds::Signed;

/// The fact with a number, from 1 on, where there is one.
pub fn numbered(facts: &[SignedFact], number: u32) -> Option<&SignedFact>
    ensures { option_map (λ f. fact_view f.now) result ≡ fact_numbered (map fact_view facts.now) number }
{
    if number == 0 {
        return None;
    }
    facts.get(number as usize - 1)
}

// The bound of a fact, if the fact is on the sum of just this polynomial at the steps of the rule.
fn sum_stated<'f>(rule: u32, form: &Poly, fact: &'f SignedFact) -> Option<&'f Signed>
    ensures { option_map (λ b. signed_of b.now) result
        ≡ sum_bound_in (record { rule = rule; form = poly_of form.now } ∷ []) (Some (fact_view fact.now)) }
{
    match fact {
        SignedFact::Sum(charges, bound) => {
            if is_only(rule, form, charges) {
                Some(bound)
            } else {
                None
            }
        }
        SignedFact::Peak(_, _, _) => None,
        SignedFact::Size(_, _, _) => None,
    }
}

/// The bound of the fact with a number, if the fact is on the sum of just this polynomial at the steps of the rule.
pub fn sum_of_form<'f>(
    facts: &'f [SignedFact],
    rule: u32,
    form: &Poly,
    number: u32,
) -> Option<&'f Signed>
    ensures { option_map (λ b. signed_of b.now) result ≡ bound_of_sum (map fact_view facts.now)
        (record { rule = rule; form = poly_of form.now } ∷ []) number }
{
    match numbered(facts, number) {
        Some(fact) => sum_stated(rule, form, fact),
        None => None,
    }
}

// The bound of a fact, if the fact is on how often the rule occurs.
fn time_stated(rule: u32, fact: &SignedFact) -> Option<&Signed>
    ensures { option_map (λ b. signed_of b.now) result ≡ sum_bound_in (charge_once rule ∷ []) (Some (fact_view fact.now)) }
{
    match fact {
        SignedFact::Sum(charges, bound) => {
            if is_once(rule, charges) {
                Some(bound)
            } else {
                None
            }
        }
        SignedFact::Peak(_, _, _) => None,
        SignedFact::Size(_, _, _) => None,
    }
}

/// The bound of the fact with a number, if the fact is on how often the rule occurs.
pub fn time_bound(facts: &[SignedFact], rule: u32, number: u32) -> Option<&Signed>
    ensures { option_map (λ b. signed_of b.now) result
        ≡ bound_of_sum (map fact_view facts.now) (charge_once rule ∷ []) number }
{
    match numbered(facts, number) {
        Some(fact) => time_stated(rule, fact),
        None => None,
    }
}

// The bound of a fact, if the fact is on just this polynomial at the steps of the rule.
fn peak_stated<'f>(rule: u32, form: &Poly, fact: &'f SignedFact) -> Option<&'f Signed>
    ensures { option_map (λ b. signed_of b.now) result
        ≡ peak_bound_in rule (poly_of form.now) (Some (fact_view fact.now)) }
{
    match fact {
        SignedFact::Sum(_, _) => None,
        SignedFact::Peak(other, covered, bound) => {
            if rule == *other && same_polynomial(form, covered) {
                Some(bound)
            } else {
                None
            }
        }
        SignedFact::Size(_, _, _) => None,
    }
}

/// The bound of the fact with a number, if the fact is on just this polynomial at the steps of the rule.
pub fn peak_bound<'f>(
    facts: &'f [SignedFact],
    rule: u32,
    form: &Poly,
    number: u32,
) -> Option<&'f Signed>
    ensures { option_map (λ b. signed_of b.now) result
        ≡ bound_of_peak (map fact_view facts.now) rule (poly_of form.now) number }
{
    match numbered(facts, number) {
        Some(fact) => peak_stated(rule, form, fact),
        None => None,
    }
}

// The bound of a fact, if the fact is on the absolute value at a place after a rule.
fn size_stated(rule: u32, place: u64, fact: &SignedFact) -> Option<&Signed>
    ensures { option_map (λ b. signed_of b.now) result ≡ size_in rule place (Some (fact_view fact.now)) }
{
    match fact {
        SignedFact::Sum(_, _) => None,
        SignedFact::Peak(_, _, _) => None,
        SignedFact::Size(other, at, bound) => {
            if rule == *other && place == u64::from(*at) {
                Some(bound)
            } else {
                None
            }
        }
    }
}

/// The bound of the fact with a number, if the fact is on the absolute value at a place, from 1 on, after a rule.
pub fn size_bound(facts: &[SignedFact], rule: u32, place: u64, number: u32) -> Option<&Signed>
    ensures { option_map (λ b. signed_of b.now) result
        ≡ size_in rule place (fact_numbered (map fact_view facts.now) number) }
{
    match numbered(facts, number) {
        Some(fact) => size_stated(rule, place, fact),
        None => None,
    }
}

// Whether a bound is the number 0.
fn is_zero(bound: &Signed) -> bool
    ensures { result ≡ is_zero_bound (signed_of bound.now) }
{
    match bound {
        Signed::Const(c) => *c == 0,
        Signed::Part(_)
        | Signed::Sum(_)
        | Signed::Prod(_)
        | Signed::Max(_)
        | Signed::Min(_, _)
        | Signed::Quotient(_, _)
        | Signed::Root(_)
        | Signed::Power(_, _) => false,
    }
}

// Whether a fact says that a rule never occurs: its steps, each counted once, are at most 0.
fn says_never(rule: u32, fact: &SignedFact) -> bool
    ensures { result ≡ is_saying_never rule (fact_view fact.now) }
{
    match fact {
        SignedFact::Sum(goal, bound) => is_zero(bound) && is_once(rule, goal),
        SignedFact::Peak(_, _, _) | SignedFact::Size(_, _, _) => false,
    }
}

/// Whether some fact says that a rule never occurs.
pub fn is_never(facts: &[SignedFact], rule: u32) -> bool
    ensures { result ≡ is_said_never (map fact_view facts.now) rule }
{
    for fact in facts {
        if says_never(rule, fact) {
            return true;
        }
    }
    false
}
