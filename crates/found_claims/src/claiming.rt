//! Claims on times, on costs, and on values from above and from below.

use crate::bounds::RuleCopies;
use crate::sides::{Side, push_place_claims};
use crate::sums::{Summand, push_sum_claim};
use claim_types::{Claim, Support};
use poly_terms::Memory;
use potential_search::Findings;
use std::alloc::Global;

/// The claims that findings support, where `copies[t - 1]` has the copies of rule t: on how often each rule occurs, on
/// what its steps cost if the program gives it a cost, on what all steps cost together, and on the value at each place
/// after each rule, from above and from below.
///
/// # Errors
///
/// `Memory` where an allocation fails.
pub fn claims_of(
    alloc: Global,
    findings: &Findings,
    copies: &[Vec<u32>],
) -> Result<Vec<Claim>, Memory> {
    let mut claims = Vec::new(alloc);
    push_sum_claims(alloc, &mut claims, findings, copies, Summand::Time)?;
    push_sum_claims(alloc, &mut claims, findings, copies, Summand::Cost)?;
    if let Some(total) = findings.total {
        claims.push(Claim::OnTotal(Support::ByOne(total)))?;
    }
    push_side_claims(alloc, &mut claims, findings, copies, Side::Above)?;
    push_side_claims(alloc, &mut claims, findings, copies, Side::Below)?;
    Ok(claims)
}

// The claims on a sum over the steps by each rule.
fn push_sum_claims(
    alloc: Global,
    claims: &mut Vec<Claim>,
    findings: &Findings,
    copies: &[Vec<u32>],
    summand: Summand,
) -> Result<(), Memory> {
    let mut rule = 1u32;
    for numbers in copies {
        push_sum_claim(
            alloc,
            claims,
            findings,
            RuleCopies { rule, numbers },
            summand,
        )?;
        rule = rule.saturating_add(1);
    }
    Ok(())
}

// The claims on values from a side.
fn push_side_claims(
    alloc: Global,
    claims: &mut Vec<Claim>,
    findings: &Findings,
    copies: &[Vec<u32>],
    side: Side,
) -> Result<(), Memory> {
    let mut rule = 1u32;
    for numbers in copies {
        push_place_claims(alloc, claims, findings, RuleCopies { rule, numbers }, side)?;
        rule = rule.saturating_add(1);
    }
    Ok(())
}
