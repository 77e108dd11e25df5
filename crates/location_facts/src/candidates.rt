//! Lists the candidate facts at the symbols of a program.

ghost use Rattle.std.specs.Prelude.{◌≡◌, ◌++◌, ◌<◌, ◌≤◌, suc, nat_eq, if◌then◌else◌, [], IfOk};
ghost use Rattle.std.specs.List.{range_with_len};
ghost use Rattle.its_model.specs.Views.{program_of};
ghost use Rattle.location_facts.specs.Candidates.{candidates, candidates_at, with_symbol, with_plus, with_places};

use crate::checks::last_place;
use crate::fact::LocFact;
use its_model::Program;
use poly_terms::Memory;
use std::alloc::{AllocError, Global};

/// The candidate facts, in order.
///
/// # Errors
///
/// `Memory` if an allocation fails, or if the number of a symbol has more than 32 bits.
pub(crate) fn all_candidates(alloc: Global, p: &Program) -> Result<Vec<LocFact>, Memory>
    ensures { IfOk result (λ all. all.items ≡ candidates (program_of p.now)) }
{
    let mut all = Vec::new(alloc);
    for symbol in 0..to_u32(p.symbols.len())? {
        push_at(&mut all, p, symbol)?;
    }
    Ok(all)
}

/// A count as a number of 32 bits; `Memory` if it needs more.
pub(crate) fn to_u32(count: usize) -> Result<u32, Memory>
    ensures { IfOk result (λ n. n ≡ count) }
{
    u32::try_from(count).map_err(|_| AllocError)
}

// Appends the candidate facts at a symbol.
#[tactic(auto, using(crate::proofs::CandidateLoops::at_start, crate::proofs::CandidateLoops::at_other))]
fn push_at(all: &mut Vec<LocFact>, p: &Program, symbol: u32) -> Result<(), Memory>
    ensures { IfOk result (λ _. all.new.items ≡ all.old.items ++ candidates_at (program_of p.now) symbol) }
{
    if symbol == p.start {
        return Ok(());
    }
    push_symbol(all, symbol, last_place(p, symbol))?;
    Ok(())
}

// Appends the candidate facts at a symbol whose plus and minus are places up to a last one.
fn push_symbol(all: &mut Vec<LocFact>, symbol: u32, last: u32) -> Result<(), Memory>
    requires { last ≤ 8 }
    ensures { IfOk result (λ _. all.new.items
        ≡ all.old.items ++ with_symbol symbol (range_with_len 0 (suc last)) (range_with_len 0 (suc last))) }
{
    for plus in 0..last + 1 {
        push_plus(all, symbol, plus, last)?;
    }
    Ok(())
}

// Appends the candidate facts with this plus, and a minus up to a last place.
fn push_plus(all: &mut Vec<LocFact>, symbol: u32, plus: u32, last: u32) -> Result<(), Memory>
    requires { last ≤ 8 }
    ensures { IfOk result (λ _. all.new.items
        ≡ all.old.items ++ with_plus symbol plus (range_with_len 0 (suc last))) }
{
    for minus in 0..last + 1 {
        push_both(all, symbol, plus, minus)?;
    }
    Ok(())
}

// Appends the candidate facts with these two places, if they differ.
#[tactic(auto, using(crate::proofs::CandidateLoops::both_same, crate::proofs::CandidateLoops::both_differ))]
fn push_both(all: &mut Vec<LocFact>, symbol: u32, plus: u32, minus: u32) -> Result<(), Memory>
    ensures { IfOk result (λ _. all.new.items
        ≡ all.old.items ++ (if nat_eq plus minus then [] else with_places symbol plus minus)) }
{
    if plus == minus {
        return Ok(());
    }
    all.push(fact(symbol, plus, minus, -1))?;
    all.push(fact(symbol, plus, minus, 0))?;
    all.push(fact(symbol, plus, minus, 1))?;
    Ok(())
}

// A fact.
fn fact(symbol: u32, plus: u32, minus: u32, least: i64) -> LocFact
    ensures { result ≡ record { symbol = symbol; plus = plus; minus = minus; least = least } }
{
    LocFact {
        symbol,
        plus,
        minus,
        least,
    }
}
