//! Makes the section that splits symbols by the rule that led to them.

use crate::names::{copy_name, saturating_u32};
use its_model::Program;
use poly_terms::Memory;
use refined_programs::{Branch, Cases, Section, SymbolCopy};
use std::alloc::Global;

/// The section with a copy of the start symbol, and a copy of the target of each rule, to which the rule leads. Copies
/// have no facts, so no certificates are needed.
///
/// # Errors
///
/// `Memory` where an allocation fails.
pub fn section_by_last_rule(alloc: Global, p: &Program) -> Result<Section, Memory> {
    let mut copies = Vec::new(alloc);
    copies.push(copy(alloc, p, p.start, 0)?)?;
    for (i, rule) in p.rules.iter().enumerate() {
        copies.push(copy(alloc, p, rule.target, i + 1)?)?;
    }
    let mut branches = Vec::new(alloc);
    for (i, copy) in copies.iter().enumerate() {
        push_branches(alloc, &mut branches, p, copy.over, saturating_u32(i))?;
    }
    Ok(Section { copies, branches })
}

// A copy of a symbol, without facts.
fn copy(alloc: Global, p: &Program, over: u32, number: usize) -> Result<SymbolCopy, Memory> {
    Ok(SymbolCopy {
        name: copy_name(alloc, p, over, number)?,
        over,
        facts: Vec::new(alloc),
    })
}

// Appends the branches of the rules that leave a symbol, at its copy: each rule leads to its own copy.
fn push_branches(
    alloc: Global,
    branches: &mut Vec<Branch>,
    p: &Program,
    symbol: u32,
    source: u32,
) -> Result<(), Memory> {
    for (i, rule) in p.rules.iter().enumerate() {
        if rule.source == symbol {
            let number = saturating_u32(i + 1);
            branches.push(Branch {
                source,
                rule: number,
                cases: Cases::To {
                    copy: number,
                    by: Vec::new(alloc),
                },
            })?;
        }
    }
    Ok(())
}
