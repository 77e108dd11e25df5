//! Answers on small graphs beside a plain closure: of all graphs of three nodes, and of random ones of six.

ghost use Rattle.std.specs.Prelude.{◌<◌, ◌≤◌, IfSome};

use crate::graphs::{before, listed, program, reached, set};
use crate::words::number;
use its_graph::has_cycle;
use model::Memory;
use std::alloc::Global;

// How many nodes small graphs have at most.
const NODES: usize = 6;

// Whether a path of the edges that have a flag, possibly empty, leads from each node to each.
fn closure(edges: &[(u32, u32)], flags: &[bool]) -> [[bool; NODES]; NODES] {
    let mut leads = [[false; NODES]; NODES];
    for i in 0..NODES {
        leads[i][i] = true;
    }
    for ((source, target), flag) in edges.iter().zip(flags) {
        if *flag {
            leads[(*source % 6) as usize][(*target % 6) as usize] = true;
        }
    }
    for k in 0..NODES {
        for i in 0..NODES {
            for j in 0..NODES {
                leads[i][j] = leads[i][j] || (leads[i][k] && leads[k][j]);
            }
        }
    }
    leads
}

// The edges between the first nodes of a graph, in order: that from i to j is the bit 6*i + j.
fn edges_of(alloc: Global, graph: u64, nodes: u32) -> Result<Vec<(u32, u32)>, Memory>
    requires { nodes ≤ 6 }
{
    let mut edges = Vec::new(alloc);
    for i in 0..nodes {
        for j in 0..nodes {
            if (graph >> (6 * i + j)) & 1 == 1 {
                edges.push((i, j))?;
            }
        }
    }
    Ok(edges)
}

// A flag for each rule: whether it is untimed, as the one whose set is looked for is, and each whose number doesn't
// leave this remainder by 3.
fn flags(
    alloc: Global,
    edges: &[(u32, u32)],
    own: u32,
    remainder: u32,
) -> Result<Vec<bool>, Memory> {
    let mut flags = Vec::new(alloc);
    let mut number = 0u32;
    for _ in edges {
        number = number.saturating_add(1);
        flags.push(number == own || number % 3 != remainder)?;
    }
    Ok(flags)
}

// The numbers of the rules without a flag.
fn cut(alloc: Global, flags: &[bool]) -> Result<Vec<u32>, Memory> {
    let mut cut = Vec::new(alloc);
    let mut number = 0u32;
    for flag in flags {
        number = number.saturating_add(1);
        if !*flag {
            cut.push(number)?;
        }
    }
    Ok(cut)
}

// The entries that can come just before a rule that comes from a symbol, by the definition.
fn slow_before(alloc: Global, edges: &[(u32, u32)], source: u32) -> Result<Vec<u32>, Memory> {
    let mut found = Vec::new(alloc);
    if source == 0 {
        found.push(0)?;
    }
    let mut number = 0u32;
    for (_, target) in edges {
        number = number.saturating_add(1);
        if *target == source {
            found.push(number)?;
        }
    }
    Ok(found)
}

// The set of a rule that comes from a symbol, by the closure of the rules with a flag.
fn slow_set(
    alloc: Global,
    edges: &[(u32, u32)],
    flags: &[bool],
    own: u32,
    source: u32,
) -> Result<Vec<u32>, Memory> {
    let leads = closure(edges, flags);
    let mut found = Vec::new(alloc);
    let mut number = 0u32;
    for ((_, target), flag) in edges.iter().zip(flags) {
        number = number.saturating_add(1);
        if number == own || (*flag && leads[(*target % 6) as usize][(source % 6) as usize]) {
            found.push(number)?;
        }
    }
    Ok(found)
}

// Whether the entries that can come just before each rule are those by the definition, and its set is that by the
// closure.
fn are_rules_right(alloc: Global, edges: &[(u32, u32)], remainder: u32) -> Result<bool, Memory> {
    let mut own = 0u32;
    for (source, _) in edges {
        own = own.saturating_add(1);
        let flags = flags(alloc, edges, own, remainder)?;
        let mut untimed = vec![in alloc; false]?;
        untimed.extend_from_slice(&flags)?;
        let found = set(alloc, edges, &untimed, own)?;
        if found != Some(slow_set(alloc, edges, &flags, own, *source)?) {
            return Ok(false);
        }
        if before(alloc, edges, own)? != Some(slow_before(alloc, edges, *source)?) {
            return Ok(false);
        }
    }
    Ok(true)
}

// Whether there is a cycle by the closure: some node leads back to where an edge to it begins.
fn slow_cycle(edges: &[(u32, u32)], leads: &[[bool; NODES]; NODES]) -> bool {
    for (source, target) in edges {
        if leads[(*target % 6) as usize][(*source % 6) as usize] {
            return true;
        }
    }
    false
}

// Whether a node may come next: it isn't listed, and each that leads to it is listed or led to by it.
fn is_ready(leads: &[[bool; NODES]; NODES], is_listed: &[bool; NODES], node: usize) -> bool
    requires { node < 6 }
{
    if is_listed[node] {
        return false;
    }
    for i in 0..NODES {
        if leads[i][node] && !leads[node][i] && !is_listed[i] {
            return false;
        }
    }
    true
}

// The component of a node by the closure; its nodes are then listed.
fn component_of(
    alloc: Global,
    leads: &[[bool; NODES]; NODES],
    is_listed: &mut [bool; NODES],
    node: usize,
) -> Result<Vec<u32>, Memory>
    requires { node < 6 }
{
    let mut component = Vec::new(alloc);
    for i in 0..NODES {
        if leads[i][node] && leads[node][i] {
            is_listed[i] = true;
            component.push(i as u32)?;
        }
    }
    Ok(component)
}

// The components between the first nodes by the closure, slowly: the component of the least node that may come next,
// again and again.
fn slow_components(
    alloc: Global,
    leads: &[[bool; NODES]; NODES],
    nodes: usize,
) -> Result<Vec<Vec<u32>>, Memory>
    requires { nodes ≤ 6 }
{
    let mut is_listed = [false; NODES];
    let mut components = Vec::new(alloc);
    for _ in 0..nodes {
        if let Some(node) = least_ready(leads, &is_listed, nodes) {
            components.push(component_of(alloc, leads, &mut is_listed, node)?)?;
        }
    }
    Ok(components)
}

// The least of the first nodes that may come next.
fn least_ready(
    leads: &[[bool; NODES]; NODES],
    is_listed: &[bool; NODES],
    nodes: usize,
) -> Option<usize>
    requires { nodes ≤ 6 }
    ensures { IfSome result (λ node. node < 6) }
{
    for node in 0..nodes {
        if is_ready(leads, is_listed, node) {
            return Some(node);
        }
    }
    None
}

// Whether the reached symbols, the cycle, the components and the answers for each rule are those by the closure, where
// the rules whose numbers leave this remainder by 3 are cut and timed.
fn is_right(alloc: Global, graph: u64, nodes: u32, remainder: u32) -> Result<bool, Memory>
    requires { nodes ≤ 6 }
{
    let edges = edges_of(alloc, graph, nodes)?;
    let leads = closure(&edges, &[true; NODES * NODES]);
    if has_cycle(alloc, &program(alloc, nodes, &edges)?)? != slow_cycle(&edges, &leads) {
        return Ok(false);
    }
    if listed(alloc, nodes, &edges)? != Some(slow_components(alloc, &leads, nodes as usize)?) {
        return Ok(false);
    }
    let flags = flags(alloc, &edges, 0, remainder)?;
    let kept = closure(&edges, &flags);
    let found = reached(alloc, nodes, &edges, &cut(alloc, &flags)?)?;
    let want = kept[0].get(..nodes as usize).unwrap_or(&[]).to_vec(alloc)?;
    Ok(found == Some(want) && are_rules_right(alloc, &edges, remainder)?)
}

/// How many graphs of three nodes there are, and that the answers on each are those by the closure, where the rules
/// whose numbers leave this remainder by 3 are cut and timed; or the first graph on which they differ.
pub(crate) fn of_three(alloc: Global, remainder: &str) -> Result<String, Memory> {
    for bits in 0..512u64 {
        let graph = (bits & 7) | (((bits >> 3) & 7) << 6) | (((bits >> 6) & 7) << 12);
        if !is_right(alloc, graph, 3, number(remainder))? {
            return format!(in alloc; "differs at {bits}");
        }
    }
    String::from_str(alloc, "512 graphs, none differs")
}

// The next of a sequence of random numbers.
fn next_random(state: u64) -> u64 {
    let mut state = state;
    state ^= (state << 13) & u64::MAX;
    state ^= state >> 7;
    state ^= (state << 17) & u64::MAX;
    state
}

/// A number of random graphs of six nodes, every second one with few edges, and that the answers on each are those by
/// the closure; or the first graph on which they differ.
pub(crate) fn of_random(alloc: Global, count: &str) -> Result<String, Memory> {
    let count = number(count);
    let mut state: u64 = 88172645463325252;
    for round in 0..count {
        state = next_random(state);
        let graph = if round % 2 == 0 {
            state & (state >> 9) & (state >> 21)
        } else {
            state & (state >> 11)
        };
        if !is_right(alloc, graph, 6, round % 4)? {
            return format!(in alloc; "differs at {round}");
        }
    }
    format!(in alloc; "{count} graphs, none differs")
}
