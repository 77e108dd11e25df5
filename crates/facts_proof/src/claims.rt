//! The claims of a proof file: for each bound of an outcome.

ghost use Rattle.std.specs.Prelude.{◌≡◌, ◌++◌, ◌+◌, IfOk};
ghost use Rattle.outcome.specs.Views.{report_of};
ghost use Rattle.facts_proof.specs.Statements.{bound_statements, each_numbered};
ghost use Rattle.facts_proof.specs.Entries.{claimed, time_entry, cost_entry, size_entry, place_entries, total_entry};

use crate::lemmas::RuleLemmas;
use bound_expr::Bound;
use claim_types::{Claim, Support};
use outcome::{CostEntry, Outcome, SizeEntry, TimeEntry};
use poly_terms::Memory;
use signed_facts::signed_bound;
use std::alloc::{AllocError, Global};

/// The claims on the times, the costs, the total and the sizes of an outcome, in order. Each cites the lemmas on the
/// copies of its rule; whether they suffice has to be checked.
///
/// # Errors
///
/// `Memory` where an allocation fails, and where there are 2^32 rules or places or more.
#[tactic(auto, using(crate::proofs::EntryLists::all_claimed))]
pub(crate) fn claims_of(
    alloc: Global,
    outcome: &Outcome,
    lemmas: &RuleLemmas,
) -> Result<Vec<Claim>, Memory>
    ensures { IfOk result (λ claims. claimed claims.items ≡ bound_statements (report_of outcome.now)) }
{
    let mut claims = Vec::new(alloc);
    push_times(alloc, &mut claims, &outcome.times, lemmas)?;
    push_costs(alloc, &mut claims, &outcome.costs, lemmas)?;
    push_total(alloc, &mut claims, &outcome.total, lemmas)?;
    push_sizes(alloc, &mut claims, &outcome.sizes, lemmas)?;
    Ok(claims)
}

// Appends the claims on times.
fn push_times(
    alloc: Global,
    claims: &mut Vec<Claim>,
    times: &[TimeEntry],
    lemmas: &RuleLemmas,
) -> Result<(), Memory>
    ensures { IfOk result (λ _. claimed claims.new.items
        ≡ claimed claims.old.items ++ each_numbered time_entry 1 times.now) }
{
    for (i, entry) in times.iter().enumerate() {
        push_time(alloc, claims, entry_number(i)?, entry, lemmas)?;
    }
    Ok(())
}

// The number, from 1 on, of the item at a position.
fn entry_number(position: usize) -> Result<u32, Memory>
    ensures { IfOk result (λ n. n ≡ position + 1) }
{
    let before = u32::try_from(position).map_err(|_| AllocError)?;
    match before.checked_add(1) {
        Some(number) => Ok(number),
        None => Err(AllocError),
    }
}

// Appends the claim on the time of a rule, where it has one.
#[tactic(auto, using(crate::proofs::Claimed::claimed_one, crate::proofs::Claimed::claimed_none))]
fn push_time(
    alloc: Global,
    claims: &mut Vec<Claim>,
    rule: u32,
    entry: &TimeEntry,
    lemmas: &RuleLemmas,
) -> Result<(), Memory>
    ensures { IfOk result (λ _. claimed claims.new.items ≡ claimed claims.old.items ++ time_entry rule entry.now) }
{
    if let TimeEntry::Known(stored) = entry {
        let numbers = lemmas.on_time(alloc, rule)?;
        let bound = signed_bound(alloc, &stored.bound)?;
        claims.push(Claim::OnTime(rule, Support::ByEach(numbers, bound)))?;
    }
    Ok(())
}

// Appends the claims on costs.
fn push_costs(
    alloc: Global,
    claims: &mut Vec<Claim>,
    costs: &[Option<CostEntry>],
    lemmas: &RuleLemmas,
) -> Result<(), Memory>
    ensures { IfOk result (λ _. claimed claims.new.items
        ≡ claimed claims.old.items ++ each_numbered cost_entry 1 costs.now) }
{
    for (i, entry) in costs.iter().enumerate() {
        push_cost(alloc, claims, entry_number(i)?, entry, lemmas)?;
    }
    Ok(())
}

// Appends the claim on the cost of a rule, where it has a bound on one.
#[tactic(auto, using(crate::proofs::Claimed::claimed_one, crate::proofs::Claimed::claimed_none))]
fn push_cost(
    alloc: Global,
    claims: &mut Vec<Claim>,
    rule: u32,
    entry: &Option<CostEntry>,
    lemmas: &RuleLemmas,
) -> Result<(), Memory>
    ensures { IfOk result (λ _. claimed claims.new.items ≡ claimed claims.old.items ++ cost_entry rule entry.now) }
{
    if let Some(CostEntry::Known(stored)) = entry {
        let numbers = lemmas.on_cost(alloc, rule)?;
        let bound = signed_bound(alloc, &stored.bound)?;
        claims.push(Claim::OnCost(rule, Support::ByEach(numbers, bound)))?;
    }
    Ok(())
}

// Appends the claim on the total, where there is one.
#[tactic(auto, using(crate::proofs::Claimed::claimed_one, crate::proofs::Claimed::claimed_none))]
fn push_total(
    alloc: Global,
    claims: &mut Vec<Claim>,
    total: &Option<Bound>,
    lemmas: &RuleLemmas,
) -> Result<(), Memory>
    ensures { IfOk result (λ _. claimed claims.new.items ≡ claimed claims.old.items ++ total_entry total.now) }
{
    if let Some(total) = total {
        let numbers = lemmas.on_total(alloc)?;
        let bound = signed_bound(alloc, total)?;
        claims.push(Claim::OnTotal(Support::ByEach(numbers, bound)))?;
    }
    Ok(())
}

// Appends the claims on the sizes after all rules.
fn push_sizes(
    alloc: Global,
    claims: &mut Vec<Claim>,
    sizes: &[Vec<SizeEntry>],
    lemmas: &RuleLemmas,
) -> Result<(), Memory>
    ensures { IfOk result (λ _. claimed claims.new.items
        ≡ claimed claims.old.items ++ each_numbered place_entries 1 sizes.now) }
{
    for (i, places) in sizes.iter().enumerate() {
        push_places(alloc, claims, entry_number(i)?, places, lemmas)?;
    }
    Ok(())
}

// Appends the claims on the sizes after a rule.
fn push_places(
    alloc: Global,
    claims: &mut Vec<Claim>,
    rule: u32,
    places: &[SizeEntry],
    lemmas: &RuleLemmas,
) -> Result<(), Memory>
    ensures { IfOk result (λ _. claimed claims.new.items
        ≡ claimed claims.old.items ++ each_numbered (size_entry rule) 1 places.now) }
{
    for (i, entry) in places.iter().enumerate() {
        push_size(alloc, claims, rule, entry_number(i)?, entry, lemmas)?;
    }
    Ok(())
}

// Appends the claims on the value at a place after a rule, from above and from below, where it has a size.
#[tactic(auto, using(crate::proofs::Claimed::claimed_two, crate::proofs::Claimed::claimed_none))]
fn push_size(
    alloc: Global,
    claims: &mut Vec<Claim>,
    rule: u32,
    place: u32,
    entry: &SizeEntry,
    lemmas: &RuleLemmas,
) -> Result<(), Memory>
    ensures { IfOk result (λ _. claimed claims.new.items
        ≡ claimed claims.old.items ++ size_entry rule place entry.now) }
{
    if let SizeEntry::Known(stored) = entry {
        let numbers = lemmas.on_size(alloc, rule, place)?;
        let bound = signed_bound(alloc, &stored.bound)?;
        claims.push(Claim::OnAbove(rule, place, numbers, bound))?;
        let numbers = lemmas.on_size(alloc, rule, place)?;
        let bound = signed_bound(alloc, &stored.bound)?;
        claims.push(Claim::OnBelow(rule, place, numbers, bound))?;
    }
    Ok(())
}
