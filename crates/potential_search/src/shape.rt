//! Whether what was found has the shape that is promised.

ghost use Rattle.std.specs.Prelude.{◌≡◌, ◌+◌, ◌<◌, ◌≤◌, ◌^◌, true, length};
ghost use Rattle.std.specs.List.{AllByRecursion};
ghost use Rattle.potential_search.specs.Shape.{IsNumber, IsNumberIfThere, MovesCite, CombinesFirst, CitesFirst};
ghost use Rattle.potential_search.specs.Shape.{AreInOrder, AreNumbers, HasNumbers, HasEntries, HasShape};

use crate::findings::Findings;
use potential_types::{Combination, Move, SignedLemma, SignedNode};

/// Whether lemmas cite earlier ones alone, and whether for each rule and for the total the numbers of lemmas are given.
pub(crate) fn has_shape(findings: &Findings, rules: usize) -> bool
    ensures { result ≡ true → HasShape rules findings.now }
{
    are_in_order(&findings.lemmas, 0) && has_numbers(findings) && has_entries(findings, rules)
}

// Whether what bounds times, costs, the total and values are numbers of lemmas.
fn has_numbers(findings: &Findings) -> bool
    ensures { result ≡ true → HasNumbers findings.now }
{
    let count = findings.lemmas.len();
    are_numbers(&findings.times, count)
        && are_numbers(&findings.costs, count)
        && is_number_if_there(findings.total, count)
        && are_number_lists(&findings.above, count)
        && are_number_lists(&findings.below, count)
}

// Whether there is an entry for each of so many rules.
fn has_entries(findings: &Findings, rules: usize) -> bool
    ensures { result ≡ true → HasEntries rules findings.now }
{
    findings.times.len() == rules
        && findings.costs.len() == rules
        && findings.above.len() == rules
        && findings.below.len() == rules
}

// Whether each lemma cites lemmas before it, where so many are before the first one.
fn are_in_order(lemmas: &[SignedLemma], before: usize) -> bool
    ensures { result ≡ true → AreInOrder before lemmas.now }
{
    match lemmas.split_first() {
        None => true,
        Some((first, others)) => match before.checked_add(1) {
            Some(next) => cites_first(&first.node, before) && are_in_order(others, next),
            None => false,
        },
    }
}

// Whether a number is that of one of the first lemmas.
fn is_number(number: u32, count: usize) -> bool
    ensures { result ≡ true → IsNumber count number }
{
    1 <= number && number as usize <= count
}

// Whether a number, if there is one, is that of one of the first lemmas.
fn is_number_if_there(number: Option<u32>, count: usize) -> bool
    ensures { result ≡ true → IsNumberIfThere count number }
{
    match number {
        None => true,
        Some(number) => is_number(number, count),
    }
}

// Whether numbers, where they are there, are those of some of the first lemmas.
fn are_numbers(numbers: &[Option<u32>], count: usize) -> bool
    ensures { result ≡ true → AreNumbers count numbers.now }
{
    match numbers.split_first() {
        None => true,
        Some((first, others)) => is_number_if_there(*first, count) && are_numbers(others, count),
    }
}

// Whether this is so in each list.
fn are_number_lists(lists: &[Vec<Option<u32>>], count: usize) -> bool
    ensures { result ≡ true → AllByRecursion (λ v. AreNumbers count v.items) lists.now }
{
    match lists.split_first() {
        None => true,
        Some((first, others)) => are_numbers(first, count) && are_number_lists(others, count),
    }
}

// Whether a node cites some of the first lemmas.
fn cites_first(node: &SignedNode, count: usize) -> bool
    ensures { result ≡ true → CitesFirst count node.now }
{
    match node {
        SignedNode::Fall(fall) => moves_cite(&fall.potential.moves, count),
        SignedNode::Peak(peak) => moves_cite(&peak.potential.moves, count),
        SignedNode::Row(_) => true,
        SignedNode::Combined(combination) => combines_first(combination, count),
        SignedNode::Sized(sized) => are_cited(&sized.cited, count),
        SignedNode::InPhases(_) => true,
    }
}

// Whether moves cite some of the first lemmas, if any.
fn moves_cite(moves: &[Move], count: usize) -> bool
    ensures { result ≡ true → MovesCite count moves.now }
{
    match moves.split_first() {
        None => true,
        Some((first, others)) => is_number_if_there(first.cited, count)
            && moves_cite(others, count),
    }
}

// Whether what is combined are some of the first lemmas.
fn combines_first(combination: &Combination, count: usize) -> bool
    ensures { result ≡ true → CombinesFirst count combination.now }
{
    match combination {
        Combination::Times { time, peak, .. } => is_number(*time, count) && is_number(*peak, count),
        Combination::Least(first, second) => is_number(*first, count) && is_number(*second, count),
        Combination::Add(first, second) => is_number(*first, count) && is_number(*second, count),
        Combination::Among(_, whole) => is_number(*whole, count),
    }
}

// Whether numbers are those of some of the first lemmas.
fn are_cited(numbers: &[u32], count: usize) -> bool
    ensures { result ≡ true → AllByRecursion (λ k. IsNumber count k) numbers.now }
{
    match numbers.split_first() {
        None => true,
        Some((first, others)) => is_number(*first, count) && are_cited(others, count),
    }
}
