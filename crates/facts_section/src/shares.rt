//! The multipliers of all facts of a symbol, shared out among those that are needed.

ghost use Rattle.std.specs.Prelude.{◌≡◌, IfOk, length};
ghost use Rattle.its_model.specs.Views.{program_of};
ghost use Rattle.facts_section.specs.Lists.{needed_count};
ghost use Rattle.facts_section.specs.Needed.{needed_facts};

use crate::needed::{completes, is_on_same_difference, needed_at, strongest_at};
use its_model::Program;
use location_facts::{LocFact, facts_at};
use poly_terms::Memory;
use std::alloc::Global;

/// The facts of a symbol: which ones are needed, and from which of these the others follow. The strongest facts are
/// numbered in order, from 0.
#[derive(Debug, Drop)]
pub(crate) struct SymbolFacts {
    /// The facts that are needed.
    pub needed: Vec<NeededFact>,
    // For each fact of the symbol, in order, the number of the strongest one on its difference.
    strongest: Vec<Option<usize>>,
    // The strongest facts that aren't needed, in order.
    implied: Vec<ImpliedFact>,
    // How many of the strongest facts there are.
    count: usize,
}

/// A fact that is needed.
#[derive(Clone, Copy, Debug)]
pub(crate) struct NeededFact {
    pub fact: LocFact,
    /// Its position among all facts of the program.
    pub position: usize,
    // Its number among the strongest facts.
    number: usize,
}

// A fact that follows from two others, by their numbers; each of these is needed, or comes later.
#[derive(Clone, Copy, Debug)]
struct ImpliedFact {
    number: usize,
    first: usize,
    second: usize,
}

/// The facts of a symbol among all facts of a program.
///
/// # Errors
///
/// `Memory` where an allocation fails.
pub(crate) fn symbol_facts(
    alloc: Global,
    p: &Program,
    symbol: u32,
    kept: &[LocFact],
) -> Result<SymbolFacts, Memory>
    ensures { IfOk result (λ f. needed_count f ≡ length (needed_facts (program_of p.now) kept.now symbol)) }
{
    let facts = facts_at(alloc, symbol, kept)?;
    let strongest = strongest_at(alloc, symbol, kept)?;
    let needed = needed_at(alloc, p, symbol, kept)?;
    let mut numbers = Vec::new(alloc);
    for fact in &facts {
        numbers.push(position_of(&strongest, fact))?;
    }
    Ok(SymbolFacts {
        needed: placed_facts(alloc, &needed, &strongest, kept)?,
        strongest: numbers,
        implied: implied_facts(alloc, &strongest, &needed)?,
        count: strongest.len(),
    })
}

// The position of the fact on the same difference, if there is one.
fn position_of(facts: &[LocFact], fact: &LocFact) -> Option<usize> {
    for (i, other) in facts.iter().enumerate() {
        if is_on_same_difference(other, fact) {
            return Some(i);
        }
    }
    None
}

// The facts that are needed, with their positions among all facts; both lists are in the same order.
fn placed_facts(
    alloc: Global,
    needed: &[LocFact],
    strongest: &[LocFact],
    kept: &[LocFact],
) -> Result<Vec<NeededFact>, Memory>
    ensures { IfOk result (λ found. length found.items ≡ length needed.now) }
{
    let mut found = Vec::new(alloc);
    let mut from = 0usize;
    for fact in needed {
        let position = position_from(kept, from, fact);
        found.push(NeededFact {
            fact: *fact,
            position,
            number: position_of(strongest, fact).unwrap_or(strongest.len()),
        })?;
        from = position.saturating_add(1);
    }
    Ok(found)
}

// The position of a fact among those from a position on; the end if it isn't there.
fn position_from(facts: &[LocFact], from: usize, fact: &LocFact) -> usize {
    for position in from..facts.len() {
        if facts[position] == *fact {
            return position;
        }
    }
    facts.len()
}

// The strongest facts that aren't needed, in order.
fn implied_facts(
    alloc: Global,
    strongest: &[LocFact],
    needed: &[LocFact],
) -> Result<Vec<ImpliedFact>, Memory> {
    let mut is_needed = vec![in alloc; false; strongest.len()]?;
    for fact in needed {
        if let Some(number) = position_of(strongest, fact) {
            if number < is_needed.len() {
                is_needed[number] = true;
            }
        }
    }
    let mut found = Vec::new(alloc);
    for number in 0..strongest.len() {
        if let Some(implied) = implied_by(strongest, &is_needed, number) {
            found.push(implied)?;
        }
    }
    Ok(found)
}

// A fact with the two needed or later facts from which it follows; none if it is needed itself.
fn implied_by(strongest: &[LocFact], is_needed: &[bool], number: usize) -> Option<ImpliedFact> {
    let fact = strongest.get(number)?;
    if may_imply(is_needed, number, number) {
        return None;
    }
    for (first, one) in strongest.iter().enumerate() {
        if one.plus == fact.plus && may_imply(is_needed, number, first) {
            for (second, other) in strongest.iter().enumerate() {
                if may_imply(is_needed, number, second) && completes(fact, one, other) {
                    return Some(ImpliedFact {
                        number,
                        first,
                        second,
                    });
                }
            }
        }
    }
    None
}

// Whether a fact may imply the one with a number: it is needed, or comes later.
fn may_imply(is_needed: &[bool], number: usize, other: usize) -> bool {
    match is_needed.get(other) {
        Some(found) => *found || number < other,
        None => false,
    }
}

impl SymbolFacts {
    /// The multipliers of the facts that are needed, where those of all facts of the symbol begin at a position: a fact
    /// gives its multiplier to the strongest one on its difference, and one that follows from two others to both.
    ///
    /// # Errors
    ///
    /// `Memory` where an allocation fails.
    pub(crate) fn shares_of_needed(
        &self,
        alloc: Global,
        multipliers: &[u64],
        begin: usize,
    ) -> Result<Vec<u64>, Memory> {
        let mut shares = vec![in alloc; 0u64; self.count]?;
        for (i, number) in self.strongest.iter().enumerate() {
            if let Some(position) = number {
                add_at(
                    &mut shares,
                    *position,
                    number_at(multipliers, begin.saturating_add(i)),
                );
            }
        }
        for implied in &self.implied {
            let share = number_at(&shares, implied.number);
            add_at(&mut shares, implied.first, share);
            add_at(&mut shares, implied.second, share);
        }
        let mut found = Vec::new(alloc);
        for needed in &self.needed {
            found.push(number_at(&shares, needed.number))?;
        }
        Ok(found)
    }
}

// Adds to the number at a position, if there is one.
fn add_at(numbers: &mut Vec<u64>, position: usize, more: u64) {
    if position < numbers.len() {
        numbers[position] = numbers[position].saturating_add(more);
    }
}

/// The number at a position, or 0 past the end.
pub(crate) fn number_at(numbers: &[u64], position: usize) -> u64 {
    match numbers.get(position) {
        Some(number) => *number,
        None => 0,
    }
}
