//! The section with one copy of each symbol.

use its_model::Program;
use poly_terms::Memory;
use program_copies::copied_name;
use refined_programs::{Branch, Cases, Section, SymbolCopy};
use std::alloc::Global;

/// A copy of each symbol, that of the start symbol first, without facts; each rule leads to the copy of its target. So
/// nothing has to be certified.
///
/// # Errors
///
/// `Memory` where an allocation fails.
pub fn section_by_symbol(alloc: Global, p: &Program) -> Result<Section, Memory> {
    let mut copies = Vec::new(alloc);
    push_copy(alloc, &mut copies, p, p.start)?;
    for (i, _) in p.symbols.iter().enumerate() {
        let symbol = u32::try_from(i).unwrap_or(u32::MAX);
        if symbol != p.start {
            push_copy(alloc, &mut copies, p, symbol)?;
        }
    }
    let mut branches = Vec::new(alloc);
    for (i, copy) in copies.iter().enumerate() {
        let source = u32::try_from(i).unwrap_or(u32::MAX);
        push_branches(alloc, &mut branches, p, copy.over, source)?;
    }
    Ok(Section { copies, branches })
}

// Appends the copy of a symbol.
fn push_copy(
    alloc: Global,
    copies: &mut Vec<SymbolCopy>,
    p: &Program,
    over: u32,
) -> Result<(), Memory> {
    if let Some(symbol) = p.symbols.get(over as usize) {
        copies.push(SymbolCopy {
            name: copied_name(alloc, &symbol.name)?,
            over,
            facts: Vec::new(alloc),
        })?;
    }
    Ok(())
}

// Appends the branches of the rules that leave a symbol, at its copy.
fn push_branches(
    alloc: Global,
    branches: &mut Vec<Branch>,
    p: &Program,
    symbol: u32,
    source: u32,
) -> Result<(), Memory> {
    for (i, rule) in p.rules.iter().enumerate() {
        if rule.source == symbol {
            branches.push(Branch {
                source,
                rule: u32::try_from(i).unwrap_or(u32::MAX).saturating_add(1),
                cases: Cases::To {
                    copy: copy_of(p, rule.target),
                    by: Vec::new(alloc),
                },
            })?;
        }
    }
    Ok(())
}

// The number of the copy of a symbol: the start symbol's is the first one, and the others follow in order.
fn copy_of(p: &Program, symbol: u32) -> u32 {
    if symbol == p.start {
        0
    } else if symbol < p.start {
        symbol.saturating_add(1)
    } else {
        symbol
    }
}
