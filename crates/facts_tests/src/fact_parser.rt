//! Facts with their proofs as a line writes them: facts are divided by `|`, and a fact from its proofs, and these from
//! one another, by commas. A fact is its symbol, plus, minus and least; a proof is its denominator and then its
//! multipliers, or multipliers after the word `empty`. A fact after the word `alone` has no list of proofs.

use location_facts::{FactProof, LocFact, LocFacts};
use model::Memory;
use std::alloc::Global;

/// Facts with their proofs.
pub(crate) fn parse_facts(alloc: Global, text: &str) -> Result<LocFacts, Memory> {
    let mut kept = Vec::new(alloc);
    let mut proofs = Vec::new(alloc);
    for part in text.split('|') {
        let (fact, shown) = part.split_once(',').unwrap_or((part, ""));
        if let Some(fact) = fact_of(&numbers_of(alloc, fact)?) {
            kept.push(fact)?;
            if !part.contains("alone") {
                proofs.push(parse_proofs(alloc, shown)?)?;
            }
        }
    }
    Ok(LocFacts { kept, proofs })
}

// The numbers among words.
fn numbers_of(alloc: Global, words: &str) -> Result<Vec<i64>, Memory> {
    let mut numbers = Vec::new(alloc);
    for word in words.split_whitespace() {
        if let Ok(number) = word.parse::<i64>() {
            numbers.push(number)?;
        }
    }
    Ok(numbers)
}

// A number of a fact.
fn to_u32_or_zero(number: i64) -> u32 {
    u32::try_from(number).unwrap_or(0)
}

// The fact of four numbers.
fn fact_of(numbers: &[i64]) -> Option<LocFact> {
    match numbers {
        [symbol, plus, minus, least] => Some(LocFact {
            symbol: to_u32_or_zero(*symbol),
            plus: to_u32_or_zero(*plus),
            minus: to_u32_or_zero(*minus),
            least: *least,
        }),
        _ => None,
    }
}

// Proofs that are divided by commas.
fn parse_proofs(alloc: Global, text: &str) -> Result<Vec<FactProof>, Memory> {
    let mut proofs = Vec::new(alloc);
    for part in text.split(',') {
        let numbers = numbers_of(alloc, part)?;
        if part.contains("empty") {
            proofs.push(FactProof::Empty(multipliers(alloc, &numbers)?))?;
        } else if let Some((den, rest)) = numbers.split_first() {
            proofs.push(FactProof::Implied(multipliers(alloc, rest)?, den.unsigned_abs()))?;
        }
    }
    Ok(proofs)
}

// Numbers as multipliers.
fn multipliers(alloc: Global, numbers: &[i64]) -> Result<Vec<u64>, Memory> {
    let mut found = Vec::new(alloc);
    for number in numbers {
        found.push(number.unsigned_abs())?;
    }
    Ok(found)
}
