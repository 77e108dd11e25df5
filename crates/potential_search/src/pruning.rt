//! Leaves out the lemmas that nothing cites.

use crate::findings::Findings;
use poly_terms::Memory;
use potential_questions::SearchError;
use potential_types::{Combination, PotentialTable, SignedLemma, SignedNode};
use std::alloc::Global;

/// The findings with the lemmas alone that bound something, or are cited on the way, by new numbers.
pub(crate) fn pruned(alloc: Global, findings: Findings) -> Result<Findings, SearchError> {
    let marks = cited_lemmas(alloc, &findings)?;
    let Findings {
        lemmas,
        times,
        costs,
        total,
        above,
        below,
        asked,
        work,
    } = findings;
    let numbers = new_numbers(alloc, &marks)?;
    Ok(Findings {
        lemmas: kept(alloc, lemmas, &numbers)?,
        times: renumbered(times, &numbers),
        costs: renumbered(costs, &numbers),
        total: total.and_then(|number| new_number(&numbers, number)),
        above: all_renumbered(above, &numbers),
        below: all_renumbered(below, &numbers),
        asked,
        work,
    })
}

// The new number of each lemma, 0 where it is left out.
fn new_numbers(alloc: Global, marks: &[bool]) -> Result<Vec<u32>, Memory> {
    let mut numbers = Vec::new(alloc);
    let mut next = 1u32;
    for is_marked in marks {
        if *is_marked {
            numbers.push(next)?;
            next = next.saturating_add(1);
        } else {
            numbers.push(0)?;
        }
    }
    Ok(numbers)
}

// The lemmas that have a new number, with new numbers in them.
fn kept(
    alloc: Global,
    lemmas: Vec<SignedLemma>,
    numbers: &[u32],
) -> Result<Vec<SignedLemma>, Memory> {
    let mut kept = Vec::new(alloc);
    for (lemma, number) in lemmas.into_iter().zip(numbers.iter()) {
        if *number > 0 {
            let mut lemma = lemma;
            renumber(&mut lemma.node, numbers);
            kept.push(lemma)?;
        }
    }
    Ok(kept)
}

// New numbers in place of old ones.
fn renumbered(lemmas: Vec<Option<u32>>, numbers: &[u32]) -> Vec<Option<u32>> {
    let mut lemmas = lemmas;
    for lemma in &mut lemmas {
        *lemma = lemma.and_then(|number| new_number(numbers, number));
    }
    lemmas
}

// New numbers in place of old ones, in each list.
fn all_renumbered(lists: Vec<Vec<Option<u32>>>, numbers: &[u32]) -> Vec<Vec<Option<u32>>> {
    let mut lists = lists;
    for list in &mut lists {
        for lemma in &mut *list {
            *lemma = lemma.and_then(|number| new_number(numbers, number));
        }
    }
    lists
}

// Which lemmas bound something, or are cited by one of these.
fn cited_lemmas(alloc: Global, findings: &Findings) -> Result<Vec<bool>, Memory> {
    let mut marks = vec![in alloc; false; findings.lemmas.len()]?;
    for time in &findings.times {
        mark(&mut marks, *time);
    }
    for cost in &findings.costs {
        mark(&mut marks, *cost);
    }
    mark(&mut marks, findings.total);
    mark_lists(&mut marks, &findings.above);
    mark_lists(&mut marks, &findings.below);
    let mut index = findings.lemmas.len();
    for lemma in findings.lemmas.iter().rev() {
        index = index.saturating_sub(1);
        if marks.get(index).copied().unwrap_or(false) {
            mark_cited(&mut marks, &lemma.node);
        }
    }
    Ok(marks)
}

// Marks the lemmas of lists.
fn mark_lists(marks: &mut Vec<bool>, lists: &[Vec<Option<u32>>]) {
    for list in lists {
        for lemma in list {
            mark(marks, *lemma);
        }
    }
}

// Marks a lemma by its number, from 1.
fn mark(marks: &mut Vec<bool>, number: Option<u32>) {
    if let Some(before) = number.and_then(|n| n.checked_sub(1)) {
        if let Some(entry) = marks.get_mut(before as usize) {
            *entry = true;
        }
    }
}

// Marks what a node cites.
fn mark_cited(marks: &mut Vec<bool>, node: &SignedNode) {
    match node {
        SignedNode::Fall(fall) => mark_moves(marks, &fall.potential),
        SignedNode::Peak(peak) => mark_moves(marks, &peak.potential),
        SignedNode::Combined(combination) => mark_combined(marks, combination),
        SignedNode::Sized(sized) => mark_numbers(marks, &sized.cited),
        SignedNode::Row(_) | SignedNode::InPhases(_) => {}
    }
}

// Marks lemmas by their numbers, from 1.
fn mark_numbers(marks: &mut Vec<bool>, numbers: &[u32]) {
    for number in numbers {
        mark(marks, Some(*number));
    }
}

// Marks what is combined.
fn mark_combined(marks: &mut Vec<bool>, combination: &Combination) {
    match combination {
        Combination::Times { time, peak, .. } => {
            mark(marks, Some(*time));
            mark(marks, Some(*peak));
        }
        Combination::Least(first, second) | Combination::Add(first, second) => {
            mark(marks, Some(*first));
            mark(marks, Some(*second));
        }
        Combination::Among(_, whole) => mark(marks, Some(*whole)),
    }
}

// Marks what moves cite.
fn mark_moves(marks: &mut Vec<bool>, potential: &PotentialTable) {
    for step in &potential.moves {
        mark(marks, step.cited);
    }
}

// The new number of a lemma, none where it is left out.
fn new_number(numbers: &[u32], number: u32) -> Option<u32> {
    let before = number.checked_sub(1)?;
    match numbers.get(before as usize) {
        Some(0) | None => None,
        Some(new) => Some(*new),
    }
}

// Puts new numbers in place of those that a node cites.
fn renumber(node: &mut SignedNode, numbers: &[u32]) {
    match node {
        SignedNode::Fall(fall) => renumber_moves(&mut fall.potential, numbers),
        SignedNode::Peak(peak) => renumber_moves(&mut peak.potential, numbers),
        SignedNode::Combined(combination) => renumber_combined(combination, numbers),
        SignedNode::Sized(sized) => renumber_all(&mut sized.cited, numbers),
        SignedNode::Row(_) | SignedNode::InPhases(_) => {}
    }
}

// Puts new numbers in place of old ones, 0 where a lemma is left out.
fn renumber_all(cited: &mut Vec<u32>, numbers: &[u32]) {
    for number in &mut *cited {
        renumber_cited(number, numbers);
    }
}

// Puts new numbers in place of those that are combined.
fn renumber_combined(combination: &mut Combination, numbers: &[u32]) {
    match combination {
        Combination::Times { time, peak, .. } => {
            renumber_cited(time, numbers);
            renumber_cited(peak, numbers);
        }
        Combination::Least(first, second) => {
            renumber_cited(first, numbers);
            renumber_cited(second, numbers);
        }
        Combination::Add(first, second) => {
            renumber_cited(first, numbers);
            renumber_cited(second, numbers);
        }
        Combination::Among(_, whole) => renumber_cited(whole, numbers),
    }
}

// Puts the new number of a lemma in place of the old one, 0 where it is left out.
fn renumber_cited(number: &mut u32, numbers: &[u32]) {
    *number = new_number(numbers, *number).unwrap_or(0);
}

// Puts new numbers in place of those that moves cite.
fn renumber_moves(potential: &mut PotentialTable, numbers: &[u32]) {
    for step in &mut potential.moves {
        step.cited = step.cited.and_then(|number| new_number(numbers, number));
    }
}
