//! Which symbols of a program's rules lead to which.

use crate::system::PreparedRule;
use poly_terms::Memory;
use std::alloc::Global;

/// The graph of a program's symbols, in which each rule leads from its source to its target.
#[derive(Debug, Drop)]
pub(crate) struct SymbolGraph {
    /// For each symbol the sources of the rules that lead to it.
    sources: Vec<Vec<u32>>,
    /// For each symbol the targets of the rules that leave it.
    targets: Vec<Vec<u32>>,
}

/// Symbols that were found, and those of them whose neighbours are still to be found.
#[derive(Drop)]
struct Reached {
    marks: Vec<bool>,
    waiting: Vec<u32>,
}

impl SymbolGraph {
    /// The graph of so many symbols.
    pub(crate) fn new(
        alloc: Global,
        symbols: usize,
        rules: &[PreparedRule],
    ) -> Result<SymbolGraph, Memory> {
        let mut sources = empty_lists(alloc, symbols)?;
        let mut targets = empty_lists(alloc, symbols)?;
        for rule in rules {
            add_neighbour(&mut sources, rule.target, rule.source)?;
            add_neighbour(&mut targets, rule.source, rule.target)?;
        }
        Ok(SymbolGraph { sources, targets })
    }

    /// The symbols from which rules lead to some symbols, these among them.
    pub(crate) fn leading_to(&self, alloc: Global, goals: &[u32]) -> Result<Vec<bool>, Memory> {
        closure_of(alloc, &self.sources, goals)
    }

    /// The symbols to which rules lead from some symbols, these among them.
    pub(crate) fn reached_from(&self, alloc: Global, from: &[u32]) -> Result<Vec<bool>, Memory> {
        closure_of(alloc, &self.targets, from)
    }
}

impl Reached {
    // Marks a symbol, if there is such a symbol and it isn't marked yet.
    fn add(&mut self, symbol: u32) -> Result<(), Memory> {
        let mark = self.marks.get(symbol as usize).copied();
        if mark == Some(false) {
            set_mark(&mut self.marks, symbol);
            self.waiting.push(symbol)?;
        }
        Ok(())
    }

    // Marks symbols.
    fn add_all(&mut self, symbols: &[u32]) -> Result<(), Memory> {
        for symbol in symbols {
            self.add(*symbol)?;
        }
        Ok(())
    }
}

// The symbols to which lists of neighbours lead from some symbols, these among them; each waits once at most.
fn closure_of(alloc: Global, neighbours: &[Vec<u32>], from: &[u32]) -> Result<Vec<bool>, Memory> {
    let mut reached = Reached {
        marks: vec![in alloc; false; neighbours.len()]?,
        waiting: Vec::new(alloc),
    };
    reached.add_all(from)?;
    for _ in neighbours {
        let Some(symbol) = reached.waiting.pop() else {
            break;
        };
        if let Some(next) = neighbours.get(symbol as usize) {
            reached.add_all(next)?;
        }
    }
    let Reached { marks, .. } = reached;
    Ok(marks)
}

// So many empty lists.
fn empty_lists(alloc: Global, count: usize) -> Result<Vec<Vec<u32>>, Memory> {
    let mut lists = Vec::with_capacity(alloc, count)?;
    for _ in 0..count {
        lists.push(Vec::new(alloc))?;
    }
    Ok(lists)
}

// Adds a neighbour to the list of a symbol.
fn add_neighbour(lists: &mut Vec<Vec<u32>>, symbol: u32, neighbour: u32) -> Result<(), Memory> {
    if let Some(list) = lists.get_mut(symbol as usize) {
        list.push(neighbour)?;
    }
    Ok(())
}

/// Marks a symbol.
pub(crate) fn set_mark(marks: &mut Vec<bool>, symbol: u32) {
    if let Some(mark) = marks.get_mut(symbol as usize) {
        *mark = true;
    }
}
