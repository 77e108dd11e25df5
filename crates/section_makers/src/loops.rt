//! Makes the sections that peel and unroll loops: symbols are split by how often a rule that leads back to its own
//! symbol was used.

use crate::names::{copy_name, saturating_u32};
use its_model::{Program, Rule};
use poly_terms::Memory;
use refined_programs::{Branch, Cases, Section, SymbolCopy};
use std::alloc::Global;

// The copy to which a rule that leads back to its own symbol leads from the second copy of that symbol.
#[derive(Clone, Copy)]
enum LoopTarget {
    // To the first copy, so that the copies alternate.
    FirstCopy,
    // To the second copy, which is never left by such a rule.
    SecondCopy,
}

/// Peels the first turn of loops: the section with a copy of the start symbol, and two copies of each symbol. A rule
/// that leads from a symbol to itself leads to the second copy, and any other rule to the first copy of its target; so
/// at the second copy such a rule was the last one. Copies have no facts, so no certificates are needed.
///
/// # Errors
///
/// `Memory` where an allocation fails.
pub fn section_with_peeled_loops(alloc: Global, p: &Program) -> Result<Section, Memory> {
    section_by(alloc, p, LoopTarget::SecondCopy)
}

/// Unrolls loops by two: the section with a copy of the start symbol, and two copies of each symbol. A rule that leads
/// from a symbol to itself leads from the second copy to the first, and from any other copy to the second; any other
/// rule leads to the first copy of its target. So the copies alternate in a loop. Copies have no facts, so no
/// certificates are needed.
///
/// # Errors
///
/// `Memory` where an allocation fails.
pub fn section_with_unrolled_loops(alloc: Global, p: &Program) -> Result<Section, Memory> {
    section_by(alloc, p, LoopTarget::FirstCopy)
}

// The section with two copies of each symbol after that of the start symbol.
fn section_by(alloc: Global, p: &Program, loop_target: LoopTarget) -> Result<Section, Memory> {
    let mut copies = Vec::new(alloc);
    copies.push(copy(alloc, p, p.start, 0)?)?;
    for (i, _) in p.symbols.iter().enumerate() {
        copies.push(copy(alloc, p, saturating_u32(i), 1)?)?;
        copies.push(copy(alloc, p, saturating_u32(i), 2)?)?;
    }
    let mut branches = Vec::new(alloc);
    for (i, copy) in copies.iter().enumerate() {
        push_branches(
            alloc,
            &mut branches,
            p,
            SourceCopy {
                source: saturating_u32(i),
                symbol: copy.over,
                loop_target,
            },
        )?;
    }
    Ok(Section { copies, branches })
}

// A copy of a symbol, without facts.
fn copy(alloc: Global, p: &Program, over: u32, number: usize) -> Result<SymbolCopy, Memory> {
    Ok(SymbolCopy {
        name: copy_name(alloc, p, over, number)?,
        over,
        facts: Vec::new(alloc),
    })
}

// A copy that rules leave, with its symbol, and the copy to which a loop leads back.
#[derive(Clone, Copy)]
struct SourceCopy {
    source: u32,
    symbol: u32,
    loop_target: LoopTarget,
}

// Appends the branches of the rules that leave a copy.
fn push_branches(
    alloc: Global,
    branches: &mut Vec<Branch>,
    p: &Program,
    source_copy: SourceCopy,
) -> Result<(), Memory> {
    for (i, rule) in p.rules.iter().enumerate() {
        if rule.source == source_copy.symbol {
            branches.push(Branch {
                source: source_copy.source,
                rule: saturating_u32(i + 1),
                cases: Cases::To {
                    copy: target_of(rule, source_copy),
                    by: Vec::new(alloc),
                },
            })?;
        }
    }
    Ok(())
}

// The copy to which a rule leads.
fn target_of(rule: &Rule, source_copy: SourceCopy) -> u32 {
    let first = rule.target.saturating_mul(2).saturating_add(1);
    let second = first.saturating_add(1);
    if rule.source != rule.target {
        return first;
    }
    match source_copy.loop_target {
        LoopTarget::FirstCopy if source_copy.source == second => first,
        _ => second,
    }
}
