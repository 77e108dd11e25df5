//! Calls on graphs, and on the graphs of programs that have a rule for each edge. An edge is `0>1`.

ghost use Rattle.std.specs.Prelude.{◌<◌, All, IsTrue};

use crate::words::{first_and_rest, number};
use its_graph::{Graph, components, has_cycle};
use its_model::{Name, Program, Rule, Symbol};
use model::Memory;
use std::alloc::Global;

// The edges of a text.
fn edges_of(alloc: Global, text: &str) -> Result<Vec<(u32, u32)>, Memory> {
    let mut edges = Vec::new(alloc);
    for word in text.split_whitespace() {
        if let Some((source, target)) = word.split_once('>') {
            edges.push((number(source), number(target)))?;
        }
    }
    Ok(edges)
}

// How many symbols there are up to the last one that an edge touches, and the start.
fn nodes_of(edges: &[(u32, u32)]) -> u32 {
    let mut last = 0;
    for (source, target) in edges {
        last = last.max(*source).max(*target);
    }
    last.saturating_add(1)
}

/// A program with this many symbols and a rule for each edge, which starts at symbol 0.
pub(crate) fn program(alloc: Global, nodes: u32, edges: &[(u32, u32)]) -> Result<Program, Memory> {
    let mut symbols = Vec::new(alloc);
    for _ in 0..nodes {
        let bytes = b"s".to_vec(alloc)?;
        symbols.push(Symbol {
            name: Name { bytes },
            arity: 0,
        })?;
    }
    let mut rules = Vec::new(alloc);
    for (source, target) in edges {
        rules.push(Rule {
            source: *source,
            target: *target,
            left: 0,
            free: 0,
            names: Vec::new(alloc),
            updates: Vec::new(alloc),
            guard: Vec::new(alloc),
            cost: None,
        })?;
    }
    Ok(Program {
        symbols,
        start: 0,
        start_names: Vec::new(alloc),
        rules,
    })
}

/// The rules that can come just before a rule, or none if there is no rule of that number.
pub(crate) fn before(
    alloc: Global,
    edges: &[(u32, u32)],
    rule: u32,
) -> Result<Option<Vec<u32>>, Memory> {
    let p = program(alloc, nodes_of(edges), edges)?;
    if p.rules.len() < 1 << 32 {
        let graph = Graph::new(alloc, &p)?;
        if 0 < rule && rule as usize <= graph.links.len() {
            return Ok(Some(graph.pre(rule).to_vec(alloc)?));
        }
    }
    Ok(None)
}

/// The set of an untimed rule, or none where the flags aren't those of a graph or the rule is timed.
pub(crate) fn set(
    alloc: Global,
    edges: &[(u32, u32)],
    untimed: &[bool],
    rule: u32,
) -> Result<Option<Vec<u32>>, Memory> {
    let p = program(alloc, nodes_of(edges), edges)?;
    if p.rules.len() < 1 << 32 {
        let graph = Graph::new(alloc, &p)?;
        if untimed.len() == graph.links.len() + 1
            && !untimed[0]
            && (rule as usize) < untimed.len()
            && untimed[rule as usize]
        {
            return Ok(Some(graph.back_closure(alloc, untimed, rule)?));
        }
    }
    Ok(None)
}

// The name of the component that the virtual entry and each rule stays in, or none where the flags aren't those of a
// graph.
fn parts(
    alloc: Global,
    edges: &[(u32, u32)],
    untimed: &[bool],
) -> Result<Option<Vec<Option<u32>>>, Memory> {
    let p = program(alloc, nodes_of(edges), edges)?;
    if p.rules.len() < 1 << 32 {
        let graph = Graph::new(alloc, &p)?;
        if untimed.len() == graph.links.len() + 1 {
            return Ok(Some(graph.parts(alloc, untimed)?));
        }
    }
    Ok(None)
}

/// Which of this many symbols are reached.
pub(crate) fn reached(
    alloc: Global,
    nodes: u32,
    edges: &[(u32, u32)],
    cut: &[u32],
) -> Result<Option<Vec<bool>>, Memory> {
    let p = program(alloc, nodes, edges)?;
    if p.rules.len() < 1 << 32 {
        let graph = Graph::new(alloc, &p)?;
        return Ok(Some(graph.reached(alloc, cut)?));
    }
    Ok(None)
}

// Whether the edges are between nodes below the number.
fn are_within(nodes: u32, edges: &[(u32, u32)]) -> bool
    ensures { IsTrue result → All (λ e. (e.0 < nodes) × (e.1 < nodes)) edges.now }
{
    for (from, to) in edges {
        if *from >= nodes || *to >= nodes {
            return false;
        }
    }
    true
}

/// The components of the graph with this many nodes, or none where an edge is out of range.
pub(crate) fn listed(
    alloc: Global,
    nodes: u32,
    edges: &[(u32, u32)],
) -> Result<Option<Vec<Vec<u32>>>, Memory> {
    if are_within(nodes, edges) {
        Ok(Some(components(alloc, nodes, edges)?))
    } else {
        Ok(None)
    }
}

/// Whether each node of a path from the last of this many nodes to the first is a component by itself, from the
/// beginning of the path on.
pub(crate) fn path(alloc: Global, count: &str) -> Result<String, Memory> {
    let nodes = number(count);
    let mut edges = Vec::new(alloc);
    for node in 1..nodes {
        edges.push((node, node - 1))?;
    }
    let mut alone = Vec::new(alloc);
    let mut last = nodes;
    for _ in 0..nodes {
        last = last.saturating_sub(1);
        alone.push(vec![in alloc; last]?)?;
    }
    let alike = listed(alloc, nodes, &edges)? == Some(alone);
    String::from_str(
        alloc,
        if alike {
            "each alone, from the last to the first"
        } else {
            "differs"
        },
    )
}

// A flag for each sign, `+` or `-`.
fn flags(alloc: Global, signs: &str) -> Result<Vec<bool>, Memory> {
    let mut flags = Vec::new(alloc);
    for sign in signs.trim().as_bytes() {
        flags.push(*sign == b'+')?;
    }
    Ok(flags)
}

// The numbers of rules that are cut.
fn cut_of(alloc: Global, numbers: &[i128]) -> Result<Vec<u32>, Memory> {
    let mut cut = Vec::new(alloc);
    for number in numbers {
        cut.push(u32::try_from(*number).unwrap_or(0))?;
    }
    Ok(cut)
}

/// The answer of a call on edges, after a semicolon and the other arguments of the call: for `before` a rule, for `set`
/// a rule and a sign for each flag, for `parts` the signs, for `reached` the number of symbols and the rules that are
/// cut, and for `components` the number of nodes.
pub(crate) fn of_graph(alloc: Global, call: &str, text: &str) -> Result<String, Memory> {
    let (asked, edges) = text.split_once(';').unwrap_or(("", text));
    let edges = edges_of(alloc, edges)?;
    match call {
        "cycle" => {
            let found = has_cycle(alloc, &program(alloc, nodes_of(&edges), &edges)?)?;
            format!(in alloc; "{found}")
        }
        "before" => format!(in alloc; "{:?}", before(alloc, &edges, number(asked))?),
        "set" => {
            let (rule, signs) = asked.split_once(' ').unwrap_or((asked, ""));
            format!(in alloc;
                "{:?}",
                set(alloc, &edges, &flags(alloc, signs)?, number(rule))?
            )
        }
        "parts" => format!(in alloc; "{:?}", parts(alloc, &edges, &flags(alloc, asked)?)?),
        "reached" => {
            let (nodes, numbers) = first_and_rest(alloc, asked)?;
            format!(in alloc;
                "{:?}",
                reached(alloc, nodes, &edges, &cut_of(alloc, &numbers)?)?
            )
        }
        "components" => format!(in alloc; "{:?}", listed(alloc, number(asked), &edges)?),
        _ => String::from_str(alloc, "no call"),
    }
}
