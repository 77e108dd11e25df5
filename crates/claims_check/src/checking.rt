//! The check of a list of claims.

ghost use Rattle.std.specs.Prelude.{◌≡◌, ◌<◌, ◌^◌, suc, map, MatchResult};
ghost use Rattle.claim_types.specs.Views.{claims_of};
ghost use Rattle.claims_check.specs.Tables.{IsWhole};
ghost use Rattle.claims_check.specs.Views.{AreStated, AreRefused, error_of, evidence_of, stated_of};

use crate::evidence::Evidence;
use crate::reason::{ClaimFault, ClaimsError, RefusedClaim};
use crate::statement::Statement;
use crate::stating::{Prepared, statement};
use crate::tables::make_tables;
use claim_types::Claim;
use std::alloc::Global;

/// What the claims state, in order, where each is accepted by the evidence. Both programs are to be valid, and the one
/// above is to be the one that the section spells.
///
/// # Errors
///
/// `Refused` with the first claim that isn't accepted and the reason; `Memory` where an allocation fails, and where a
/// fact of a copy has 2^32 coefficients or more.
pub fn check_claims(
    alloc: Global,
    evidence: Evidence,
    claims: &[Claim],
) -> Result<Vec<Statement>, ClaimsError>
    requires { IsWhole evidence }
    ensures { MatchResult result
        (λ stated. AreStated (evidence_of evidence.entry) (claims_of claims.now) (map stated_of stated.items))
        (λ error. AreRefused (evidence_of evidence.entry) (claims_of claims.now) error) }
{
    let made = make_tables(alloc, evidence)?;
    let prepared = Prepared {
        evidence,
        tables: &made,
    };
    let mut stated = Vec::new(alloc);
    for i in 0..claims.len() {
        match statement(alloc, prepared, &claims[i]) {
            Ok(one) => stated.push(one)?,
            Err(fault) => return Err(error_at(i, fault)),
        }
    }
    Ok(stated)
}

// The error of the claim at a position, from 0 on.
fn error_at(i: usize, fault: ClaimFault) -> ClaimsError
    requires { suc i < 2 ^ 64 }
    ensures { result ≡ error_of i fault }
{
    match fault {
        ClaimFault::Refused(reason) => ClaimsError::Refused(RefusedClaim {
            claim: i + 1,
            reason,
        }),
        ClaimFault::Memory => ClaimsError::Memory,
    }
}
