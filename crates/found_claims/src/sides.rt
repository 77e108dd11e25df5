//! Claims on the values after a rule, from a side.

use crate::bounds::{RuleCopies, bounds_of};
use claim_types::Claim;
use poly_terms::Memory;
use potential_search::Findings;
use signed_bounds::Signed;
use signed_within::is_within;
use simpler_bounds::greatest;
use std::alloc::Global;

/// From which side a value is bounded.
#[derive(Clone, Copy, Debug, PartialEq, Eq)]
pub(crate) enum Side {
    Above,
    Below,
}

/// Appends the claims on the values after the copies of a rule from a side.
pub(crate) fn push_place_claims(
    alloc: Global,
    claims: &mut Vec<Claim>,
    findings: &Findings,
    rule_copies: RuleCopies,
    side: Side,
) -> Result<(), Memory> {
    for place in 0..places_of(findings, rule_copies.numbers, side) {
        if let Some(claim) = side_claim(alloc, findings, rule_copies, side, place)? {
            claims.push(claim)?;
        }
    }
    Ok(())
}

// How many places the first one of some copies has values at.
fn places_of(findings: &Findings, numbers: &[u32], side: Side) -> u32 {
    match numbers.first() {
        Some(first) => u32::try_from(lemmas_after(findings, *first, side).len()).unwrap_or(0),
        None => 0,
    }
}

// The lemmas on values after a copy from a side.
fn lemmas_after(findings: &Findings, number: u32, side: Side) -> &[Option<u32>] {
    let lists = lemmas_by_copy(findings, side);
    let Some(position) = number.checked_sub(1) else {
        return &[];
    };
    match lists.get(position as usize) {
        Some(list) => list.as_slice(),
        None => &[],
    }
}

// The lemmas on values from a side; those of copy t are at position t - 1.
fn lemmas_by_copy(findings: &Findings, side: Side) -> &[Vec<Option<u32>>] {
    match side {
        Side::Above => findings.above.as_slice(),
        Side::Below => findings.below.as_slice(),
    }
}

// The claim on the value at a place, from 0 on, after the copies of a rule; none where one of them has no lemma.
fn side_claim(
    alloc: Global,
    findings: &Findings,
    rule_copies: RuleCopies,
    side: Side,
    place: u32,
) -> Result<Option<Claim>, Memory> {
    let Some(cited) = lemmas_at_place(alloc, findings, rule_copies.numbers, side, place)? else {
        return Ok(None);
    };
    let bounds = bounds_of(alloc, findings, &cited)?;
    let bound = greatest(alloc, &bounds)?;
    if !are_at_most(alloc, &bounds, &bound)? {
        return Ok(None);
    }
    let number = place.saturating_add(1);
    match side {
        Side::Above => Ok(Some(Claim::OnAbove(rule_copies.rule, number, cited, bound))),
        Side::Below => Ok(Some(Claim::OnBelow(rule_copies.rule, number, cited, bound))),
    }
}

// The lemmas on the value at a place after copies from a side, where each has one.
fn lemmas_at_place(
    alloc: Global,
    findings: &Findings,
    numbers: &[u32],
    side: Side,
    place: u32,
) -> Result<Option<Vec<u32>>, Memory> {
    let mut cited = Vec::new(alloc);
    for number in numbers {
        let Some(lemma) = lemma_at(lemmas_after(findings, *number, side), place) else {
            return Ok(None);
        };
        cited.push(lemma)?;
    }
    Ok(Some(cited))
}

// The lemma at a place.
fn lemma_at(lemmas: &[Option<u32>], place: u32) -> Option<u32> {
    match lemmas.get(place as usize) {
        Some(lemma) => *lemma,
        None => None,
    }
}

// Whether the comparison accepts that each bound is at most another one.
fn are_at_most(alloc: Global, bounds: &[Signed], greatest_bound: &Signed) -> Result<bool, Memory> {
    for bound in bounds {
        if !is_within(alloc, 1, bound, greatest_bound)? {
            return Ok(false);
        }
    }
    Ok(true)
}
