//! Facts that are composed of others.

ghost use Rattle.std.specs.Prelude.{◌≡◌, [], ◌∷◌, Some, IfOk, option_map, map};
ghost use Rattle.potential_nodes.specs.Checks.{first_refused};
ghost use Rattle.potential_nodes.specs.Combinations.{combination_checks};
ghost use Rattle.potential_nodes.specs.potentials.model.Programs.{Program};
ghost use Rattle.potential_ground.specs.RowTerms.{ground_of};
ghost use Rattle.signed_bounds.specs.Safe.{expands_to_squares as expands};
ghost use Rattle.potential_types.specs.Views.{reason_of};
ghost use Rattle.poly_terms.specs.Views.{poly_of};
ghost use Rattle.signed_bounds.specs.Views.{signed_of};
ghost use Rattle.potential_nodes.specs.Combinations.{lesser as lesser_of, product_fact as fact_of_product};
ghost use Rattle.potential_nodes.specs.Combinations.{least_fact as fact_of_least, added_fact as fact_of_sum};
ghost use Rattle.potential_nodes.specs.Combinations.{composed as composed_of};
ghost use Rattle.potential_nodes.specs.Combinations.{without_charge as charges_without, are_among as all_among};
ghost use Rattle.potential_nodes.specs.Combinations.{among_fact as fact_among, bound_of as bound_of_fact};
ghost use Rattle.potential_nodes.specs.Facts.{SumFact, PeakFact};
ghost use Rattle.potential_types.specs.Views.{charge_of, fact_view, combination_of};
ghost use Rattle.check_potentials.specs.Combining.{IsTakenFrom};

use poly_terms::{Memory, Poly};
use potential_types::{
    Charge, Combination, Reason, SignedFact, copied_bound, copied_charges, copied_poly, numbered,
    peak_bound, same_charge, same_charges, same_polynomial, time_bound,
};
use signed_bounds::Signed;
use signed_within::is_within;
use std::alloc::Global;

// The maximum number of charges of two sums together.
const CHARGE_LIMIT: usize = 4096;

/// The first reason why a composed fact with a stated bound isn't accepted given these facts; `None` if it is accepted.
///
/// # Errors
///
/// `Memory` where an allocation fails.
pub(crate) fn combination_refusal(
    alloc: Global,
    facts: &[SignedFact],
    node: &Combination,
    bound: &Signed,
) -> Result<Option<Reason>, Memory>
    ensures { IfOk result (λ o. (p : Program) → option_map reason_of o ≡ first_refused
        (combination_checks (ground_of p expands) (map fact_view facts.now) (combination_of node.now) (signed_of bound.now))) }
{
    match composed(alloc, facts, node)? {
        None => Ok(Some(Reason::BadShape)),
        Some(fact) => {
            if is_within(alloc, 1, bound_of(&fact), bound)? {
                return Ok(None);
            }
            Ok(Some(Reason::LowBound))
        }
    }
}

// The bound of a fact.
fn bound_of(fact: &SignedFact) -> &Signed
    ensures { signed_of result.now ≡ bound_of_fact (fact_view fact.now) }
{
    match fact {
        SignedFact::Sum(_, bound) => bound,
        SignedFact::Peak(_, _, bound) => bound,
        SignedFact::Size(_, _, bound) => bound,
    }
}

/// The composed fact, if there is one.
///
/// # Errors
///
/// `Memory` where an allocation fails.
pub(crate) fn composed(
    alloc: Global,
    facts: &[SignedFact],
    node: &Combination,
) -> Result<Option<SignedFact>, Memory>
    ensures { IfOk result (λ o. option_map fact_view o
        ≡ composed_of (map fact_view facts.now) (combination_of node.now)) }
{
    match node {
        Combination::Times {
            rule,
            form,
            time,
            peak,
        } => {
            let often = time_bound(facts, *rule, *time);
            let high = peak_bound(facts, *rule, form, *peak);
            product_fact(alloc, *rule, form, often, high)
        }
        Combination::Least(a, b) => least_fact(alloc, numbered(facts, *a), numbered(facts, *b)),
        Combination::Add(a, b) => added_fact(alloc, numbered(facts, *a), numbered(facts, *b)),
        Combination::Among(goal, a) => among_fact(alloc, goal, numbered(facts, *a)),
    }
}

// The sum of a form of a rule by its time and its peak.
fn product_fact(
    alloc: Global,
    rule: u32,
    form: &Poly,
    often: Option<&Signed>,
    high: Option<&Signed>,
) -> Result<Option<SignedFact>, Memory>
    ensures { IfOk result (λ o. option_map fact_view o ≡ fact_of_product rule (poly_of form.now)
        (option_map (λ b. signed_of b.now) often.entry) (option_map (λ b. signed_of b.now) high.entry)) }
{
    let Some(times) = often else {
        return Ok(None);
    };
    let Some(peak) = high else {
        return Ok(None);
    };
    let form = copied_poly(alloc, form)?;
    let mut charges = Vec::new(alloc);
    charges.push(Charge { rule, form })?;
    let parts = both(alloc, times, peak)?;
    Ok(Some(SignedFact::Sum(charges, Signed::Prod(parts))))
}

// Two bounds, in order.
fn both(alloc: Global, a: &Signed, b: &Signed) -> Result<Vec<Signed>, Memory>
    ensures { IfOk result (λ parts. map signed_of parts.items ≡ signed_of a.now ∷ signed_of b.now ∷ []) }
{
    let mut parts = Vec::new(alloc);
    parts.push(copied_bound(alloc, a)?)?;
    parts.push(copied_bound(alloc, b)?)?;
    Ok(parts)
}

// The lesser of two bounds.
fn lesser(alloc: Global, a: &Signed, b: &Signed) -> Result<Signed, Memory>
    ensures { IfOk result (λ c. signed_of c ≡ lesser_of (signed_of a.now) (signed_of b.now)) }
{
    let mut others = Vec::new(alloc);
    others.push(copied_bound(alloc, b)?)?;
    let first = Box::new(alloc, copied_bound(alloc, a)?)?;
    Ok(Signed::Min(first, others))
}

// The lesser of two bounds, if both are on the same sum or the same peak.
fn least_fact(
    alloc: Global,
    a: Option<&SignedFact>,
    b: Option<&SignedFact>,
) -> Result<Option<SignedFact>, Memory>
    ensures { IfOk result (λ o. option_map fact_view o
        ≡ fact_of_least (option_map (λ f. fact_view f.now) a.entry) (option_map (λ f. fact_view f.now) b.entry)) }
{
    let Some(first) = a else {
        return Ok(None);
    };
    let Some(second) = b else {
        return Ok(None);
    };
    match first {
        SignedFact::Sum(goal, bound) => least_sum(alloc, goal, bound, second),
        SignedFact::Peak(rule, form, bound) => least_peak(alloc, *rule, form, bound, second),
        SignedFact::Size(_, _, _) => Ok(None),
    }
}

// The lesser of two bounds, if the second is on the same sum.
fn least_sum(
    alloc: Global,
    goal: &[Charge],
    bound: &Signed,
    second: &SignedFact,
) -> Result<Option<SignedFact>, Memory>
    ensures { IfOk result (λ o. option_map fact_view o
        ≡ fact_of_least (Some (SumFact (map charge_of goal.now) (signed_of bound.now))) (Some (fact_view second.now))) }
{
    match second {
        SignedFact::Sum(other, upper) => {
            if !same_charges(goal, other) {
                return Ok(None);
            }
            let charges = copied_charges(alloc, goal)?;
            Ok(Some(SignedFact::Sum(charges, lesser(alloc, bound, upper)?)))
        }
        SignedFact::Peak(_, _, _) => Ok(None),
        SignedFact::Size(_, _, _) => Ok(None),
    }
}

// The lesser of two bounds, if the second is on the same peak.
fn least_peak(
    alloc: Global,
    rule: u32,
    form: &Poly,
    bound: &Signed,
    second: &SignedFact,
) -> Result<Option<SignedFact>, Memory>
    ensures { IfOk result (λ o. option_map fact_view o
        ≡ fact_of_least (Some (PeakFact rule (poly_of form.now) (signed_of bound.now))) (Some (fact_view second.now))) }
{
    match second {
        SignedFact::Sum(_, _) => Ok(None),
        SignedFact::Peak(other, covered, upper) => {
            if !(rule == *other && same_polynomial(form, covered)) {
                return Ok(None);
            }
            let form = copied_poly(alloc, form)?;
            Ok(Some(SignedFact::Peak(rule, form, lesser(alloc, bound, upper)?)))
        }
        SignedFact::Size(_, _, _) => Ok(None),
    }
}

// Two sums together, if they have at most `CHARGE_LIMIT` charges together.
fn added_fact(
    alloc: Global,
    a: Option<&SignedFact>,
    b: Option<&SignedFact>,
) -> Result<Option<SignedFact>, Memory>
    ensures { IfOk result (λ o. option_map fact_view o
        ≡ fact_of_sum (option_map (λ f. fact_view f.now) a.entry) (option_map (λ f. fact_view f.now) b.entry)) }
{
    let Some(first) = a else {
        return Ok(None);
    };
    let Some(second) = b else {
        return Ok(None);
    };
    match first {
        SignedFact::Sum(goal, bound) => added_sum(alloc, goal, bound, second),
        SignedFact::Peak(_, _, _) => Ok(None),
        SignedFact::Size(_, _, _) => Ok(None),
    }
}

// A sum and a second one together, if they have at most `CHARGE_LIMIT` charges together.
fn added_sum(
    alloc: Global,
    goal: &[Charge],
    bound: &Signed,
    second: &SignedFact,
) -> Result<Option<SignedFact>, Memory>
    ensures { IfOk result (λ o. option_map fact_view o
        ≡ fact_of_sum (Some (SumFact (map charge_of goal.now) (signed_of bound.now))) (Some (fact_view second.now))) }
{
    match second {
        SignedFact::Sum(other, upper) => {
            if goal.len().saturating_add(other.len()) > CHARGE_LIMIT {
                return Ok(None);
            }
            let mut charges = copied_charges(alloc, goal)?;
            let mut more = copied_charges(alloc, other)?;
            charges.append(&mut more)?;
            let parts = both(alloc, bound, upper)?;
            Ok(Some(SignedFact::Sum(charges, Signed::Sum(parts))))
        }
        SignedFact::Peak(_, _, _) => Ok(None),
        SignedFact::Size(_, _, _) => Ok(None),
    }
}

// Charges that are among those of a sum.
fn among_fact(
    alloc: Global,
    goal: &[Charge],
    a: Option<&SignedFact>,
) -> Result<Option<SignedFact>, Memory>
    ensures { IfOk result (λ o. option_map fact_view o
        ≡ fact_among (map charge_of goal.now) (option_map (λ f. fact_view f.now) a.entry)) }
{
    let Some(fact) = a else {
        return Ok(None);
    };
    match fact {
        SignedFact::Sum(charges, bound) => {
            if !are_among(goal, copied_charges(alloc, charges)?) {
                return Ok(None);
            }
            let goal = copied_charges(alloc, goal)?;
            Ok(Some(SignedFact::Sum(goal, copied_bound(alloc, bound)?)))
        }
        SignedFact::Peak(_, _, _) => Ok(None),
        SignedFact::Size(_, _, _) => Ok(None),
    }
}

// Whether each charge is found among those that are left, and is used up there.
fn are_among(goal: &[Charge], charges: Vec<Charge>) -> bool
    ensures { result ≡ all_among (map charge_of goal.now) (map charge_of charges.items) }
{
    match goal.split_first() {
        None => true,
        Some((first, others)) => match without_charge(first, charges) {
            None => false,
            Some(left) => are_among(others, left),
        },
    }
}

// Charges without the first one that is the same as another, if there is one.
fn without_charge(charge: &Charge, charges: Vec<Charge>) -> Option<Vec<Charge>>
    ensures { option_map (λ left. map charge_of left.items) result
        ≡ charges_without (charge_of charge.now) (map charge_of charges.items) }
{
    let mut left = charges;
    let found = position(charge, &left);
    match found {
        None => None,
        Some(index) => {
            let _ = left.remove(index);
            Some(left)
        }
    }
}

// The position of the first charge that is the same.
fn position(charge: &Charge, charges: &[Charge]) -> Option<usize>
    ensures { IsTakenFrom (charges_without (charge_of charge.now) (map charge_of charges.now)) (map charge_of charges.now) result }
{
    for i in 0..charges.len() {
        if same_charge(charge, &charges[i]) {
            return Some(i);
        }
    }
    None
}
