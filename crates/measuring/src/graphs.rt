//! Calls on the graph of a program that has a rule for each edge.

ghost use Rattle.std.specs.Prelude.{◌<◌, All, IsTrue};

use crate::answers::number;
use its_graph::{Graph, components, has_cycle};
use its_model::{Program, Rule};
use model::Memory;
use std::alloc::Global;

/// The edges of a text, as `0>1`.
pub(crate) fn edges_of(alloc: Global, text: &str) -> Result<Vec<(u32, u32)>, Memory> {
    let mut edges = Vec::new(alloc);
    for word in text.split_whitespace() {
        if let Some((source, target)) = word.split_once('>') {
            edges.push((number(source), number(target)))?;
        }
    }
    Ok(edges)
}

/// The program with a rule for each edge, of which only these matter.
pub(crate) fn program(alloc: Global, edges: &[(u32, u32)]) -> Result<Program, Memory> {
    let mut rules = Vec::new(alloc);
    for (source, target) in edges {
        rules.push(Rule {
            source: *source,
            target: *target,
            left: 0,
            free: 0,
            names: Vec::new(alloc),
            updates: Vec::new(alloc),
            guard: Vec::new(alloc),
            cost: None,
        })?;
    }
    Ok(Program {
        symbols: Vec::new(alloc),
        start: 0,
        start_names: Vec::new(alloc),
        rules,
    })
}

// Whether all edges are between the first nodes.
fn are_edges_below(nodes: u32, edges: &[(u32, u32)]) -> bool
    ensures { IsTrue result → All (λ e. (e.0 < nodes) × (e.1 < nodes)) edges.now }
{
    for (from, to) in edges {
        if *from >= nodes || *to >= nodes {
            return false;
        }
    }
    true
}

/// How many components the graph of edges has.
pub(crate) fn measure_components(
    alloc: Global,
    edges: &[(u32, u32)],
    times: u32,
) -> Result<usize, Memory> {
    let mut nodes = 0u32;
    for (from, to) in edges {
        nodes = nodes.max(from.saturating_add(1)).max(to.saturating_add(1));
    }
    let mut found = 0;
    if are_edges_below(nodes, edges) {
        for _ in 0..times {
            found = components(alloc, nodes, edges)?.len();
        }
    }
    Ok(found)
}

/// The result of a call on a program: whether there is a cycle, 1 or 0; or how many symbols its graph has, how many can
/// be reached or not, or how many rules are in the set of the last rule if all rules are untimed.
pub(crate) fn measure_program(
    alloc: Global,
    call: &str,
    p: &Program,
    times: u32,
) -> Result<usize, Memory> {
    match call {
        "cycle" => measure_cycle(alloc, p, times),
        "graph" => measure_graph(alloc, p, times),
        "set" => measure_last_set(alloc, p, times),
        _ => measure_reached(alloc, p, times),
    }
}

// Whether the program has a cycle.
fn measure_cycle(alloc: Global, p: &Program, times: u32) -> Result<usize, Memory> {
    let mut found = 0;
    for _ in 0..times {
        found = if has_cycle(alloc, p)? { 1 } else { 0 };
    }
    Ok(found)
}

// How many symbols the graph has.
fn measure_graph(alloc: Global, p: &Program, times: u32) -> Result<usize, Memory> {
    let mut found = 0;
    if p.rules.len() < 1 << 32 {
        for _ in 0..times {
            let graph = Graph::new(alloc, p)?;
            found = graph.symbols;
        }
    }
    Ok(found)
}

// How many symbols can be reached or not.
fn measure_reached(alloc: Global, p: &Program, times: u32) -> Result<usize, Memory> {
    let mut found = 0;
    if p.rules.len() < 1 << 32 {
        let graph = Graph::new(alloc, p)?;
        for _ in 0..times {
            found = graph.reached(alloc, &[])?.len();
        }
    }
    Ok(found)
}

// How many rules are in the set of the last rule.
fn measure_last_set(alloc: Global, p: &Program, times: u32) -> Result<usize, Memory> {
    let mut untimed = Vec::new(alloc);
    untimed.push(false)?;
    for _ in 0..p.rules.len() {
        untimed.push(true)?;
    }
    match u32::try_from(p.rules.len()) {
        Ok(last) => measure_set(alloc, p, &untimed, last, times),
        Err(_) => Ok(0),
    }
}

// How many rules are in the set of a rule, if the flags are those of the graph.
fn measure_set(
    alloc: Global,
    p: &Program,
    untimed: &[bool],
    rule: u32,
    times: u32,
) -> Result<usize, Memory> {
    let mut found = 0;
    if p.rules.len() < 1 << 32 {
        let graph = Graph::new(alloc, p)?;
        if untimed.len() == graph.links.len() + 1
            && !untimed[0]
            && (rule as usize) < untimed.len()
            && untimed[rule as usize]
        {
            for _ in 0..times {
                found = graph.back_closure(alloc, untimed, rule)?.len();
            }
        }
    }
    Ok(found)
}
