//! Which rules of a refined program are copies of which rule.

ghost use Rattle.std.specs.Prelude.{◌≡◌, length, IfOk};

use poly_terms::Memory;
use refined_programs::{Cases, Section};
use std::alloc::Global;

/// For each of a number of rules, the numbers of its copies in the program that a section spells: those of rule t are
/// at position t - 1. The spelled program has, in order, a rule for each path of each branch that leads to a copy.
///
/// # Errors
///
/// `Memory` where an allocation fails.
pub fn copies_in(alloc: Global, section: &Section, rules: usize) -> Result<Vec<Vec<u32>>, Memory>
    ensures { IfOk result (λ copies. length copies.items ≡ rules) }
{
    let mut copies = no_copies(alloc, rules)?;
    let mut next = 1u32;
    for branch in &section.branches {
        next = push_copies(&mut copies, branch.rule, next, path_count(&branch.cases))?;
    }
    Ok(copies)
}

// Appends `count` numbers from `first` on to the copies of a rule, and gives the next number.
fn push_copies(copies: &mut Vec<Vec<u32>>, rule: u32, first: u32, count: u32) -> Result<u32, Memory>
    ensures { IfOk result (λ _. length copies.new.items ≡ length copies.old.items) }
{
    let end = first.saturating_add(count);
    if let Some(position) = rule.checked_sub(1) {
        if let Some(numbers) = copies.get_mut(position as usize) {
            for number in first..end {
                numbers.push(number)?;
            }
        }
    }
    Ok(end)
}

/// For each of a number of rules, its copies in the program itself: each rule is its own copy.
///
/// # Errors
///
/// `Memory` where an allocation fails.
pub fn own_copies(alloc: Global, rules: usize) -> Result<Vec<Vec<u32>>, Memory>
    ensures { IfOk result (λ copies. length copies.items ≡ rules) }
{
    let mut copies = Vec::new(alloc);
    let mut next = 1u32;
    for _ in 0..rules {
        copies.push(vec![in alloc; next]?)?;
        next = next.saturating_add(1);
    }
    Ok(copies)
}

// An empty list of copies for each of a number of rules.
fn no_copies(alloc: Global, rules: usize) -> Result<Vec<Vec<u32>>, Memory>
    ensures { IfOk result (λ copies. length copies.items ≡ rules) }
{
    let mut copies = Vec::new(alloc);
    for _ in 0..rules {
        copies.push(Vec::new(alloc))?;
    }
    Ok(copies)
}

/// The number of rules of the program that a section spells.
pub fn rules_in(section: &Section) -> u32 {
    let mut count = 0u32;
    for branch in &section.branches {
        count = count.saturating_add(path_count(&branch.cases));
    }
    count
}

// The number of paths through cases that lead to a copy.
fn path_count(cases: &Cases) -> u32 {
    match cases {
        Cases::To { .. } => 1,
        Cases::Never { .. } => 0,
        Cases::If { yes, no, .. } => path_count(yes).saturating_add(path_count(no)),
    }
}
