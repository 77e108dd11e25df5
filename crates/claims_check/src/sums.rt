//! What facts bound a sum of charges by.

ghost use Rattle.std.specs.Prelude.{◌≡◌, map, option_map, IfOk, MatchResult, Some};
ghost use Rattle.signed_bounds.specs.Views.{signed_of, signeds_of, parts_of};
ghost use Rattle.potential_nodes.specs.Facts.{sum_bound as bound_of_sum, sum_bound_in};
ghost use Rattle.potential_types.specs.Views.{charge_of, fact_view};
ghost use Rattle.program_claims.specs.Sums.{charge_bound as bound_of_charge, charge_bounds as bounds_of_charges};
ghost use Rattle.program_claims.specs.Sums.{parts_bound as bound_of_parts, charges_bound as bound_of_charges};
ghost use Rattle.program_claims.specs.Verdicts as verdicts;
ghost use Rattle.claim_types.specs.Views.{support_of};
ghost use Rattle.claims_check.specs.Tables.{IsKnown, zero_bound_if};
ghost use Rattle.claims_check.specs.Views.{IsRefusal};

use crate::known::{Known, is_never};
use crate::reason::{ClaimFault, ClaimReason};
use claim_types::Support;
use poly_terms::Memory;
use potential_types::{Charge, SignedFact, copied_bound, numbered, same_charges, sum_of_form};
use signed_bounds::Signed;
use signed_within::is_within;
use std::alloc::Global;

// The bound of a fact, where it is on the sum of just these charges.
fn sum_stated<'f>(charges: &[Charge], fact: &'f SignedFact) -> Option<&'f Signed>
    ensures { option_map (λ b. signed_of b.now) result
        ≡ sum_bound_in (map charge_of charges.now) (Some (fact_view fact.now)) }
{
    match fact {
        SignedFact::Sum(goal, bound) => {
            if same_charges(charges, goal) {
                Some(bound)
            } else {
                None
            }
        }
        SignedFact::Peak(_, _, _) => None,
        SignedFact::Size(_, _, _) => None,
    }
}

// The bound of the fact with a number, where it is on the sum of just these charges.
fn sum_bound<'f>(facts: &'f [SignedFact], charges: &[Charge], number: u32) -> Option<&'f Signed>
    ensures { option_map (λ b. signed_of b.now) result
        ≡ bound_of_sum (map fact_view facts.now) (map charge_of charges.now) number }
{
    match numbered(facts, number) {
        Some(fact) => sum_stated(charges, fact),
        None => None,
    }
}

// A bound, where there is one, in memory of its own.
fn copied(alloc: Global, bound: Option<&Signed>) -> Result<Option<Signed>, Memory>
    ensures { IfOk result (λ o. option_map signed_of o ≡ option_map (λ b. signed_of b.now) bound.entry) }
{
    match bound {
        Some(bound) => Ok(Some(copied_bound(alloc, bound)?)),
        None => Ok(None),
    }
}

// The bound 0, where a test says yes.
pub(crate) fn zero_if(test: bool) -> Option<Signed>
    ensures { option_map signed_of result ≡ zero_bound_if test }
{
    if test { Some(Signed::Const(0)) } else { None }
}

// What a charge adds up to at most, by the fact with a number; 0 needs no fact where the rule never occurs.
fn charge_bound(
    alloc: Global,
    known: Known,
    charge: &Charge,
    number: u32,
) -> Result<Option<Signed>, Memory>
    requires { IsKnown known }
    ensures { IfOk result (λ o. option_map signed_of o
        ≡ bound_of_charge (map fact_view known.entry.facts.now) (charge_of charge.now) number) }
{
    if number == 0 {
        return Ok(zero_if(is_never(known, charge.rule)));
    }
    let found = copied(
        alloc,
        sum_of_form(known.facts, charge.rule, &charge.form, number),
    )?;
    Ok(found)
}

// What each charge adds up to at most, by one fact for each.
fn charge_bounds(
    alloc: Global,
    known: Known,
    charges: &[Charge],
    numbers: &[u32],
) -> Result<Option<Vec<Signed>>, Memory>
    requires { IsKnown known }
    ensures { IfOk result (λ o. option_map (λ parts. parts_of (signeds_of parts.items)) o
        ≡ bounds_of_charges (map fact_view known.entry.facts.now) (map charge_of charges.now) numbers.now) }
{
    if charges.len() != numbers.len() {
        return Ok(None);
    }
    let mut parts = Vec::new(alloc);
    for i in 0..charges.len() {
        let found = charge_bound(alloc, known, &charges[i], numbers[i])?;
        let Some(part) = found else {
            return Ok(None);
        };
        parts.push(part)?;
    }
    Ok(Some(parts))
}

// A bound, where the parts are there and come to at most so much.
fn parts_bound(
    alloc: Global,
    bound: &Signed,
    parts: Option<Vec<Signed>>,
) -> Result<Signed, ClaimFault>
    ensures { let verdict = bound_of_parts (signed_of bound.now)
        (option_map (λ ps. parts_of (signeds_of ps.items)) parts) in
        MatchResult result (λ b. verdict ≡ verdicts.Accepted (signed_of b)) (λ fault. IsRefusal verdict fault) }
{
    let Some(parts) = parts else {
        return Err(ClaimFault::Refused(ClaimReason::BadLemma));
    };
    let sum = Signed::Sum(parts);
    let is_high = is_within(alloc, 1, &sum, bound)?;
    if is_high {
        Ok(copied_bound(alloc, bound)?)
    } else {
        Err(ClaimFault::Refused(ClaimReason::LowBound))
    }
}

// What charges add up to at most, by one fact on all of them, or by one for each.
pub(crate) fn charges_bound(
    alloc: Global,
    known: Known,
    charges: &[Charge],
    support: &Support,
) -> Result<Signed, ClaimFault>
    requires { IsKnown known }
    ensures { let verdict = bound_of_charges (map fact_view known.entry.facts.now) (map charge_of charges.now)
        (support_of support.now) in
        MatchResult result (λ b. verdict ≡ verdicts.Accepted (signed_of b)) (λ fault. IsRefusal verdict fault) }
{
    match support {
        Support::ByOne(number) => whole_bound(alloc, known.facts, charges, *number),
        Support::ByEach(numbers, bound) => {
            let parts = charge_bounds(alloc, known, charges, numbers)?;
            parts_bound(alloc, bound, parts)
        }
    }
}

// What charges add up to at most, by one fact on all of them.
fn whole_bound(
    alloc: Global,
    facts: &[SignedFact],
    charges: &[Charge],
    number: u32,
) -> Result<Signed, ClaimFault>
    ensures { let verdict = verdicts.verdict_or verdicts.BadLemma
        (bound_of_sum (map fact_view facts.now) (map charge_of charges.now) number) in
        MatchResult result (λ b. verdict ≡ verdicts.Accepted (signed_of b)) (λ fault. IsRefusal verdict fault) }
{
    match sum_bound(facts, charges, number) {
        Some(bound) => Ok(copied_bound(alloc, bound)?),
        None => Err(ClaimFault::Refused(ClaimReason::BadLemma)),
    }
}
