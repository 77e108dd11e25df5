//! What is looked up for each claim, made once for all of them.

ghost use Rattle.std.specs.Prelude.{◌≡◌, ◌++◌, ◌∷◌, ◌==◌, ◌<◌, ◌^◌, ℕ, [], length, if◌then◌else◌, IfOk, OnOk};
ghost use Rattle.claims_check.specs.Tables.{IsWhole, AreTables, AreCopies, list_at};

use crate::below::rules_below;
use crate::charges::cost_charges;
use crate::evidence::Evidence;
use never_rules::never_flags;
use poly_terms::Memory;
use potential_types::Charge;
use std::alloc::Global;

/// Tables by the numbers of rules, from 0 on.
#[derive(Drop)]
pub(crate) struct Tables {
    /// For each rule of the program its copies, in order.
    pub copies: Vec<Vec<u32>>,
    /// For each rule above whether some fact says that it never occurs.
    pub never: Vec<bool>,
    /// The charge of its cost for each step by each rule above, in order.
    pub costs: Vec<Charge>,
}

// The tables of evidence.
pub(crate) fn make_tables(alloc: Global, evidence: Evidence) -> Result<Tables, Memory>
    requires { IsWhole evidence }
    ensures { IfOk result (λ made. AreTables evidence.entry made) }
{
    let below = rules_below(alloc, evidence.program, evidence.section)?;
    let rules = evidence.program.rules.len() + 1;
    let above = evidence.above.rules.len() + 1;
    let copies = rule_copies(alloc, &below, rules)?;
    let never = never_flags(alloc, evidence.facts, above)?;
    let costs = cost_charges(alloc, evidence.above)?;
    Ok(Tables {
        copies,
        never,
        costs,
    })
}

// For each number of a rule, from 0 on and below `count`, the numbers of the copies of this
// rule, which are the rules of the refined program that are this rule of the spelled one.
fn rule_copies(alloc: Global, below: &[u32], count: usize) -> Result<Vec<Vec<u32>>, Memory>
    requires { length below.now < 2 ^ 32 }
    ensures counted { IfOk result (λ copies. length copies.items ≡ count) }
    ensures copies { IfOk result (λ copies. AreCopies below.now copies.items) }
{
    let mut copies = empty_lists(alloc, count)?;
    for i in 0..below.len() {
        push_copy(&mut copies, below[i], i as u32 + 1)?;
    }
    Ok(copies)
}

// Appends a number to the list of a rule, if the rule has one.
fn push_copy(lists: &mut Vec<Vec<u32>>, rule: u32, number: u32) -> Result<(), Memory>
    ensures size { length lists.new.items ≡ length lists.old.items }
    ensures lists { OnOk result ((a : ℕ) → a < length lists.old.items → list_at lists.new.items a
        ≡ (if rule == a then list_at lists.old.items a ++ number ∷ [] else list_at lists.old.items a)) }
{
    let index = rule as usize;
    if index < lists.len() {
        push_to(lists, index, number)
    } else {
        Ok(())
    }
}

// Appends a number to the list at a position.
fn push_to(lists: &mut Vec<Vec<u32>>, index: usize, number: u32) -> Result<(), Memory>
    requires { index < length lists.old.items }
    ensures size { length lists.new.items ≡ length lists.old.items }
    ensures lists { OnOk result ((a : ℕ) → list_at lists.new.items a
        ≡ (if index == a then list_at lists.old.items a ++ number ∷ [] else list_at lists.old.items a)) }
{
    lists[index].push(number)?;
    Ok(())
}

// A list of this many empty lists.
fn empty_lists(alloc: Global, count: usize) -> Result<Vec<Vec<u32>>, Memory>
    ensures counted { IfOk result (λ lists. length lists.items ≡ count) }
    ensures empty { IfOk result (λ lists. (a : ℕ) → list_at lists.items a ≡ []) }
{
    let mut lists = Vec::with_capacity(alloc, count)?;
    for _ in 0..count {
        lists.push(Vec::new(alloc))?;
    }
    Ok(lists)
}
