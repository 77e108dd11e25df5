//! The greatest set of candidate facts that is inductive: in each round the facts are dropped that some rule doesn't
//! keep, until none is dropped.

use crate::linear_programs::least_sum;
use crate::paths::{drop_unproved, rows_at};
use crate::rows::{copied_form, push_form, strongest_rows};
use guard_prep::RuleRows;
use poly_terms::Memory;
use refined_programs::{Affine, Branch, SymbolCopy};
use std::alloc::Global;

// The most rounds. If facts that some rule doesn't keep are left after them, the section isn't accepted.
const ROUND_LIMIT: u32 = 200;
// The most facts that are left at a copy.
const FACT_LIMIT: usize = 12;

/// Drops facts of copies that some branch doesn't keep under the facts at its source, until there are none. After the
/// first round only those branches are tried again whose source has lost facts.
///
/// # Errors
///
/// `Memory` where an allocation fails.
pub(crate) fn keep_inductive(
    alloc: Global,
    copies: &mut [SymbolCopy],
    branches: &[Branch],
    prepared_rules: &[RuleRows],
) -> Result<(), Memory> {
    let mut changed = vec![in alloc; true; copies.len()]?;
    for _ in 0..ROUND_LIMIT {
        let changed_before = changed;
        changed = vec![in alloc; false; copies.len()]?;
        for branch in branches {
            if is_marked(&changed_before, branch.source) {
                drop_unproved_by(alloc, copies, &mut changed, branch, prepared_rules)?;
            }
        }
        if !changed.contains(&true) {
            return Ok(());
        }
    }
    Ok(())
}

// Whether a copy is marked.
fn is_marked(marks: &[bool], copy: u32) -> bool {
    marks.get(copy as usize).copied().unwrap_or(false)
}

// Drops the facts that a branch doesn't keep, and marks the copies that lose some.
fn drop_unproved_by(
    alloc: Global,
    copies: &mut [SymbolCopy],
    changed: &mut Vec<bool>,
    branch: &Branch,
    prepared_rules: &[RuleRows],
) -> Result<(), Memory> {
    let Some(rule) = rule_numbered(prepared_rules, branch.rule) else {
        return Ok(());
    };
    let rows = match copies.get(branch.source as usize) {
        Some(source) => strongest_rows(alloc, &rows_at(alloc, rule, &source.facts)?)?,
        None => return Ok(()),
    };
    drop_unproved(alloc, copies, changed, rule, &rows, &branch.cases)
}

/// The rows of the rule with a number, from 1.
pub(crate) fn rule_numbered(prepared_rules: &[RuleRows], number: u32) -> Option<&RuleRows> {
    if number == 0 {
        return None;
    }
    prepared_rules.get(number as usize - 1)
}

/// The facts of a copy without those that the others imply, and the first of these where there are many.
///
/// # Errors
///
/// `Memory` where an allocation fails.
pub(crate) fn without_implied_facts(
    alloc: Global,
    facts: &[Affine],
) -> Result<Vec<Affine>, Memory> {
    let mut remaining = Vec::new(alloc);
    for (i, fact) in facts.iter().enumerate() {
        let later = match facts.split_at_checked(i.saturating_add(1)) {
            Some((_, later)) => later,
            None => &[],
        };
        if remaining.len() < FACT_LIMIT && !is_implied(alloc, &remaining, later, fact)? {
            remaining.push(copied_form(alloc, fact)?)?;
        }
    }
    Ok(remaining)
}

// Whether a fact follows from others at all rational points: only then do all that it shows follow without it.
fn is_implied(
    alloc: Global,
    changed_before: &[Affine],
    later: &[Affine],
    fact: &Affine,
) -> Result<bool, Memory> {
    let mut rows = Vec::new(alloc);
    for other in changed_before {
        push_form(alloc, &mut rows, other)?;
    }
    for other in later {
        push_form(alloc, &mut rows, other)?;
    }
    let mut wanted = Vec::new(alloc);
    push_form(alloc, &mut wanted, fact)?;
    match wanted.first() {
        Some(row) => match least_sum(alloc, &rows, row)? {
            Some(least) => Ok(least.is_at_most(row.constant)),
            None => Ok(false),
        },
        None => Ok(true),
    }
}
