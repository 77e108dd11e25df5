//! The facts of a symbol that are needed: the strongest on each difference, and where these are many, without those
//! that others imply.

ghost use Rattle.std.specs.Prelude.{◌≡◌, ◌++◌, ◌&&◌, ◌||◌, ◌+ℤ◌, [], IfOk, int_le, nat_eq};
ghost use Rattle.std.specs.List.{list_any};
ghost use Rattle.its_model.specs.Views.{program_of};
ghost use Rattle.facts_section.specs.Needed.{is_weaker as is_weaker_than, completes as completes_with};
ghost use Rattle.facts_section.specs.Needed.{is_implied as is_implied_by};
ghost use Rattle.facts_section.specs.Needed.{strongest, strongest_among as strongest_of};
ghost use Rattle.facts_section.specs.Needed.{needed_among as needed_of, needed_facts};
ghost use Rattle.facts_section.specs.Needed.{without_implied as left_of};

use its_model::Program;
use location_facts::{LocFact, facts_at};
use poly_terms::Memory;
use std::alloc::Global;

/// Up to this many facts of a symbol all are needed: half of the atoms that a guard can have.
const FEW_FACTS: usize = 32;

/// The facts of a symbol that are needed, in order: the strongest on each difference, and of more than 32 of these only
/// those that others don't imply. The start symbol has none.
///
/// # Errors
///
/// `Memory` where an allocation fails.
#[tactic(auto, using(crate::proofs::CopyLists::if_same, crate::proofs::CopyLists::if_other))]
pub(crate) fn needed_at(
    alloc: Global,
    p: &Program,
    symbol: u32,
    kept: &[LocFact],
) -> Result<Vec<LocFact>, Memory>
    ensures { IfOk result (λ facts. facts.items ≡ needed_facts (program_of p.now) kept.now symbol) }
{
    if symbol == p.start {
        return Ok(Vec::new(alloc));
    }
    let facts = strongest_at(alloc, symbol, kept)?;
    needed_among(alloc, facts)
}

// Of few facts all, and of more those that are left without the implied ones.
#[tactic(auto, using(crate::proofs::CopyLists::if_at_most, crate::proofs::CopyLists::if_above))]
fn needed_among(alloc: Global, facts: Vec<LocFact>) -> Result<Vec<LocFact>, Memory>
    ensures { IfOk result (λ needed. needed.items ≡ needed_of facts.items) }
{
    if facts.len() <= FEW_FACTS {
        Ok(facts)
    } else {
        without_implied(alloc, &facts)
    }
}

/// The strongest facts of a symbol, in order: of the facts on the same difference the one with the greatest bound.
///
/// # Errors
///
/// `Memory` where an allocation fails.
pub(crate) fn strongest_at(
    alloc: Global,
    symbol: u32,
    kept: &[LocFact],
) -> Result<Vec<LocFact>, Memory>
    ensures { IfOk result (λ facts. facts.items ≡ strongest kept.now symbol) }
{
    let facts = facts_at(alloc, symbol, kept)?;
    strongest_among(alloc, &facts)
}

// The facts that are weaker than none of them, in order.
fn strongest_among(alloc: Global, facts: &[LocFact]) -> Result<Vec<LocFact>, Memory>
    ensures { IfOk result (λ found. found.items ≡ strongest_of facts.now) }
{
    let mut found = Vec::new(alloc);
    for fact in facts {
        if !is_weaker_than_some(fact, facts) {
            found.push(*fact)?;
        }
    }
    Ok(found)
}

// Whether a fact is weaker than another one on the same difference.
fn is_weaker_than_some(fact: &LocFact, facts: &[LocFact]) -> bool
    ensures { result ≡ list_any (is_weaker_than fact.now) facts.now }
{
    facts.iter().any(|other| is_weaker(fact, other))
}

// Whether a fact is weaker than another one on the same difference.
fn is_weaker(fact: &LocFact, other: &LocFact) -> bool
    ensures { result ≡ is_weaker_than fact.now other.now }
{
    is_on_same_difference(fact, other) && fact.least < other.least
}

/// Whether two facts of a symbol are on the same difference.
pub(crate) fn is_on_same_difference(fact: &LocFact, other: &LocFact) -> bool
    ensures { result ≡ (nat_eq fact.now.plus other.now.plus && nat_eq fact.now.minus other.now.minus) }
{
    fact.plus == other.plus && fact.minus == other.minus
}

// The facts that are left, in order, where each one that follows from two others that are left is left out.
fn without_implied(alloc: Global, facts: &[LocFact]) -> Result<Vec<LocFact>, Memory>
    ensures { IfOk result (λ left. left.items ≡ left_of [] facts.now) }
{
    let mut left = Vec::new(alloc);
    let mut rest = facts;
    while let Some((fact, behind)) = rest.split_first() {
        if !is_implied(fact, &left, behind) {
            left.push(*fact)?;
        }
        rest = behind;
    }
    Ok(left)
}

// Whether a fact follows from two facts of these lists.
#[tactic(auto, using(crate::proofs::CopyLists::any_of_both))]
fn is_implied(fact: &LocFact, before: &[LocFact], behind: &[LocFact]) -> bool
    ensures { result ≡ is_implied_by fact.now (before.now ++ behind.now) }
{
    let in_front = follows_with_first_among(fact, before, before, behind);
    let at_back = follows_with_first_among(fact, behind, before, behind);
    either(in_front, at_back)
}

// Whether a fact follows from one of these facts and one of the facts in two lists.
fn follows_with_first_among(
    fact: &LocFact,
    firsts: &[LocFact],
    before: &[LocFact],
    behind: &[LocFact],
) -> bool
    ensures { result ≡ list_any (λ first. nat_eq first.plus fact.now.plus
        && list_any (completes_with fact.now first) (before.now ++ behind.now)) firsts.now }
{
    firsts
        .iter()
        .any(|first| follows_from(fact, first, before, behind))
}

// Whether a fact follows from another one and a fact of these lists.
fn follows_from(fact: &LocFact, first: &LocFact, before: &[LocFact], behind: &[LocFact]) -> bool
    ensures { result ≡ (nat_eq first.now.plus fact.now.plus
        && list_any (completes_with fact.now first.now) (before.now ++ behind.now)) }
{
    first.plus == fact.plus && is_completed_among(fact, first, before, behind)
}

// Whether a fact of these lists completes another one to a fact.
#[tactic(auto, using(crate::proofs::CopyLists::any_of_both))]
fn is_completed_among(
    fact: &LocFact,
    first: &LocFact,
    before: &[LocFact],
    behind: &[LocFact],
) -> bool
    ensures { result ≡ list_any (completes_with fact.now first.now) (before.now ++ behind.now) }
{
    let in_front = completes_among(fact, first, before);
    let at_back = completes_among(fact, first, behind);
    either(in_front, at_back)
}

// Whether one of these facts completes another one to a fact.
fn completes_among(fact: &LocFact, first: &LocFact, seconds: &[LocFact]) -> bool
    ensures { result ≡ list_any (completes_with fact.now first.now) seconds.now }
{
    seconds.iter().any(|second| completes(fact, first, second))
}

// Whether one of two answers is yes.
fn either(first: bool, second: bool) -> bool
    ensures { result ≡ (first || second) }
{
    first || second
}

/// Whether a fact follows from another one with the same place added, and a second one: the second one's difference
/// completes the first one's, and the sum of their bounds is at least that of the fact.
pub(crate) fn completes(fact: &LocFact, first: &LocFact, second: &LocFact) -> bool
    ensures { result ≡ completes_with fact.now first.now second.now }
{
    first.minus == second.plus && second.minus == fact.minus && sum_reaches(fact, first, second)
}

// Whether the sum of two facts' bounds is at least the bound of a fact.
fn sum_reaches(fact: &LocFact, first: &LocFact, second: &LocFact) -> bool
    ensures { result ≡ int_le fact.now.least (first.now.least +ℤ second.now.least) }
{
    to_i128(fact.least) <= sum_of_bounds(first, second)
}

// The sum of two facts' bounds.
fn sum_of_bounds(first: &LocFact, second: &LocFact) -> i128
    ensures { result ≡ first.now.least +ℤ second.now.least }
{
    to_i128(first.least) + to_i128(second.least)
}

// A number with more bits.
fn to_i128(number: i64) -> i128
    ensures { result ≡ number }
{
    i128::from(number)
}
