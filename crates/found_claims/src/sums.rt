//! Claims on how often rules occur, and on what their steps cost.

use crate::bounds::{RuleCopies, bounds_of};
use claim_types::{Claim, Support};
use poly_terms::Memory;
use potential_search::Findings;
use signed_bounds::Signed;
use signed_within::is_within;
use simpler_bounds::simplified;
use std::alloc::Global;

/// What is summed over the steps by a rule.
#[derive(Clone, Copy, Debug, PartialEq, Eq)]
pub(crate) enum Summand {
    /// 1 for each step.
    Time,
    /// The written cost of each step.
    Cost,
}

/// Appends the claim on a sum over the steps by the copies of a rule, where a lemma bounds it for each copy. A rule
/// without copies never occurs; of its cost nothing is claimed.
pub(crate) fn push_sum_claim(
    alloc: Global,
    claims: &mut Vec<Claim>,
    findings: &Findings,
    rule_copies: RuleCopies,
    summand: Summand,
) -> Result<(), Memory> {
    let Some(support) = support_of(alloc, findings, rule_copies.numbers, summand)? else {
        return Ok(());
    };
    match summand {
        Summand::Time => claims.push(Claim::OnTime(rule_copies.rule, support))?,
        Summand::Cost => {
            if !rule_copies.numbers.is_empty() {
                claims.push(Claim::OnCost(rule_copies.rule, support))?;
            }
        }
    }
    Ok(())
}

// What supports a claim on a sum over the steps by copies: a lemma for each, and a bound on the sum of their bounds.
fn support_of(
    alloc: Global,
    findings: &Findings,
    numbers: &[u32],
    summand: Summand,
) -> Result<Option<Support>, Memory> {
    let Some(cited) = lemmas_of(alloc, findings, numbers, summand)? else {
        return Ok(None);
    };
    if let [only] = cited.as_slice() {
        return Ok(Some(Support::ByOne(*only)));
    }
    let composed = Signed::Sum(bounds_of(alloc, findings, &cited)?);
    let bound = simplified(alloc, &composed)?;
    if is_within(alloc, 1, &composed, &bound)? {
        Ok(Some(Support::ByEach(cited, bound)))
    } else {
        Ok(Some(Support::ByEach(cited, composed)))
    }
}

// The lemmas on a sum over the steps by copies, where each has one.
fn lemmas_of(
    alloc: Global,
    findings: &Findings,
    numbers: &[u32],
    summand: Summand,
) -> Result<Option<Vec<u32>>, Memory> {
    let lemmas = lemmas_on(findings, summand);
    let mut cited = Vec::new(alloc);
    for number in numbers {
        let Some(lemma) = lemma_of(lemmas, *number) else {
            return Ok(None);
        };
        cited.push(lemma)?;
    }
    Ok(Some(cited))
}

// The lemmas on a sum over the steps by each copy; that of copy t is at position t - 1.
fn lemmas_on(findings: &Findings, summand: Summand) -> &[Option<u32>] {
    match summand {
        Summand::Time => findings.times.as_slice(),
        Summand::Cost => findings.costs.as_slice(),
    }
}

// The lemma of a copy.
fn lemma_of(lemmas: &[Option<u32>], number: u32) -> Option<u32> {
    let position = number.checked_sub(1)?;
    match lemmas.get(position as usize) {
        Some(lemma) => *lemma,
        None => None,
    }
}
