//! Checks whether a fact is a candidate, and whether the shape of its proofs is right.

ghost use Rattle.std.specs.Prelude.{◌≡◌, ◌≤◌, ◌<◌, ◌↔◌, ◌-◌, ◌^◌, length, pos, negsuc, ◌≤ℤ◌, IsTrue, IfOk, Some};
ghost use Rattle.std.specs.List.{All};
ghost use Rattle.its_model.specs.Views.{program_of};
ghost use Rattle.location_facts.specs.Candidates.{IsCandidate, last_place as place_limit, order_number};
ghost use Rattle.location_facts.specs.Certificates.{IsWithinLimit};
ghost use Rattle.location_facts.specs.Faults.{IsRight, rules_into as rules_to};
ghost use Rattle.farkas_cert.specs.Sizes.{AreWithinLimit};
ghost use Rattle.poly_terms.specs.model.Paths.{same_symbol};

use crate::fact::{FactProof, LocFact};
use cert_types::target_of;
use farkas_cert::LIMIT;
use its_model::Program;
use poly_terms::Memory;
use std::alloc::Global;

/// The last place that facts of a symbol can use.
#[tactic(auto, using(crate::proofs::FaultLists::last_found, crate::proofs::FaultLists::last_missing))]
pub(crate) fn last_place(p: &Program, symbol: u32) -> u32
    ensures same { result ≡ place_limit (program_of p.now) symbol }
    ensures few { result ≤ 8 }
{
    match p.symbols.get(symbol as usize) {
        Some(s) => s.arity.min(8),
        None => 0,
    }
}

// Whether the symbol of a fact is one of the program, and not the start symbol.
#[tactic(auto, using(crate::proofs::FaultLists::symbol_count))]
fn has_symbol(p: &Program, fact: LocFact) -> bool
    ensures { IsTrue result
        ↔ ((fact.symbol < length (program_of p.now).symbols) × (¬ (fact.symbol ≡ (program_of p.now).start))) }
{
    (fact.symbol as usize) < p.symbols.len() && fact.symbol != p.start
}

// Whether the places of a fact are up to a last one, and differ.
fn has_places(fact: LocFact, last: u32) -> bool
    ensures { IsTrue result ↔ ((fact.plus ≤ last) × (fact.minus ≤ last) × (¬ (fact.plus ≡ fact.minus))) }
{
    fact.plus <= last && fact.minus <= last && fact.plus != fact.minus
}

// Whether a number is the `least` of a candidate fact.
fn is_least(least: i64) -> bool
    ensures { IsTrue result ↔ ((negsuc 0 ≤ℤ least) × (least ≤ℤ pos 1)) }
{
    -1 <= least && least <= 1
}

/// Whether a fact is a candidate.
pub(crate) fn is_candidate(p: &Program, fact: LocFact) -> bool
    ensures { IsTrue result ↔ IsCandidate (program_of p.now) fact }
{
    has_symbol(p, fact) && has_places(fact, last_place(p, fact.symbol)) && is_least(fact.least)
}

/// The number of a fact in the order of candidate facts.
pub(crate) fn number_of(fact: LocFact) -> u64
    requires plus { fact.plus ≤ 8 }
    requires minus { fact.minus ≤ 8 }
    requires low { negsuc 0 ≤ℤ fact.least }
    requires high { fact.least ≤ℤ pos 1 }
    ensures same { result ≡ order_number fact }
    ensures small { result < 2 ^ 40 }
{
    let places = (u64::from(fact.symbol) * 9 + u64::from(fact.plus)) * 9 + u64::from(fact.minus);
    places * 3 + (fact.least + 1).unsigned_abs()
}

// Whether multipliers are within the limit.
fn are_small(multipliers: &[u64]) -> bool
    ensures { IsTrue result ↔ AreWithinLimit multipliers.now }
{
    for multiplier in multipliers {
        if *multiplier > LIMIT {
            return false;
        }
    }
    true
}

// Whether the numbers of a proof are within the limit.
fn is_within_limit(proof: &FactProof) -> bool
    ensures { IsTrue result ↔ IsWithinLimit proof.now }
{
    match proof {
        FactProof::Empty(multipliers) => are_small(multipliers),
        FactProof::Implied(multipliers, den) => {
            are_small(multipliers) && 1 <= *den && *den <= LIMIT
        }
    }
}

// Whether the numbers of these proofs are within the limit.
fn are_within_limit(proofs: &[FactProof]) -> bool
    ensures { IsTrue result ↔ All IsWithinLimit proofs.now }
{
    for proof in proofs {
        let is_small = is_within_limit(proof);
        if !is_small {
            return false;
        }
    }
    true
}

/// Whether a fact is right and has a number of at least `least`, and its proofs have the right shape, if this many
/// rules lead to its symbol.
pub(crate) fn is_right(
    p: &Program,
    least: u64,
    fact: LocFact,
    proofs: &[FactProof],
    count: usize,
) -> bool
    requires { count ≡ length (rules_to (program_of p.now) fact.symbol) }
    ensures { IsTrue result ↔ IsRight (program_of p.now) least fact proofs.now }
{
    if !is_candidate(p, fact) {
        return false;
    }
    least <= number_of(fact) && proofs.len() == count && are_within_limit(proofs)
}

/// The rules that lead to a symbol, ascending.
#[tactic(auto, using(crate::proofs::FaultLists::into_pushed, crate::proofs::FaultLists::into_passed, crate::proofs::FaultLists::into_all))]
pub(crate) fn rules_into(alloc: Global, p: &Program, symbol: u32) -> Result<Vec<u32>, Memory>
    requires { length p.now.rules.items < 2 ^ 32 - 1 }
    ensures { IfOk result (λ rules. rules.items ≡ rules_to (program_of p.now) symbol) }
{
    let mut found = Vec::new(alloc);
    for before in 0..p.rules.len() as u32 {
        let rule = before + 1;
        let leads_there = is_symbol(target_of(p, rule), symbol);
        if leads_there {
            found.push(rule)?;
        }
    }
    Ok(found)
}

// Whether an optional symbol is this one.
fn is_symbol(found: Option<u32>, symbol: u32) -> bool
    ensures { result ≡ same_symbol found (Some symbol) }
{
    match found {
        Some(number) => number == symbol,
        None => false,
    }
}
