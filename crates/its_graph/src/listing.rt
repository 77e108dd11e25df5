//! The strongly connected components of a graph, in their order.

ghost use Rattle.std.specs.Prelude.{◌≡◌, ◌≢◌, ℕ, ◌<◌, ◌≤◌, ◌^◌, length, map, All, IfOk, slice_index};
ghost use Rattle.std.specs.List.{Contains};
ghost use Rattle.its_graph.specs.Groups.{IsPair, items_of, values_in};
ghost use Rattle.its_graph.specs.Components.{IsListing};
ghost use Rattle.its_graph.specs.Classes.{AreLeaders};
ghost use Rattle.its_graph.specs.Members.{numbered, AreMembers};

use crate::classes::leaders_of;
use crate::order::order_of;
use crate::pairs::{grouped, swapped};
use model::Memory;
use std::alloc::Global;

/// The strongly connected components of the graph with this many nodes and these edges. Each comes after all components
/// that have a path to it; among those that may come next, the one with the least node comes first. The nodes of a
/// component ascend. The time is near-linear, and there is no recursion along a path.
///
/// # Errors
///
/// `Memory` if an allocation fails.
pub fn components(alloc: Global, nodes: u32, edges: &[(u32, u32)]) -> Result<Vec<Vec<u32>>, Memory>
    requires { All (λ e. (e.0 < nodes) × (e.1 < nodes)) edges.now }
    ensures { IfOk result (λ found. IsListing (IsPair edges.now) nodes (map items_of found.items)) }
{
    components_below(alloc, nodes as usize, edges)
}

/// The components of the graph with nodes below a number that is at most 2^32.
pub(crate) fn components_below(
    alloc: Global,
    nodes: usize,
    edges: &[(u32, u32)],
) -> Result<Vec<Vec<u32>>, Memory>
    requires few { nodes ≤ 2 ^ 32 }
    requires within { All (λ e. (e.0 < nodes) × (e.1 < nodes)) edges.now }
    ensures listing { IfOk result (λ found. IsListing (IsPair edges.now) nodes (map items_of found.items)) }
    ensures few { IfOk result (λ found. length found.items ≤ nodes) }
{
    let leaders = leaders_in(alloc, nodes, edges)?;
    let order = order_of(alloc, edges, &leaders)?;
    members_of(alloc, &leaders, &order)
}

/// The least node of each node's component.
pub(crate) fn leaders_in(
    alloc: Global,
    nodes: usize,
    edges: &[(u32, u32)],
) -> Result<Vec<u32>, Memory>
    requires few { nodes ≤ 2 ^ 32 }
    requires within { All (λ e. (e.0 < nodes) × (e.1 < nodes)) edges.now }
    ensures { IfOk result (λ leaders. AreLeaders (IsPair edges.now) nodes leaders.items) }
{
    let next = grouped(alloc, nodes, edges)?;
    let previous = grouped(alloc, nodes, &swapped(alloc, edges)?)?;
    leaders_of(alloc, &next, &previous)
}

// The nodes of each component, by the order of the leaders.
fn members_of(alloc: Global, leaders: &[u32], order: &[u32]) -> Result<Vec<Vec<u32>>, Memory>
    requires few { length leaders.now ≤ 2 ^ 32 }
    requires order_few { length order.now ≤ length leaders.now }
    requires order_within { All (λ l. l < length leaders.now) order.now }
    requires leaders_within { All (λ l. l < length leaders.now) leaders.now }
    requires distinct { (j k : ℕ) → j < k → k < length order.now → slice_index order.now j ≢ slice_index order.now k }
    requires all { (a : ℕ) → a < length leaders.now → Contains order.now (slice_index leaders.now a) }
    ensures one_each { IfOk result (λ found. length found.items ≡ length order.now) }
    ensures members { IfOk result
        (λ found. (k : ℕ) → k < length order.now
        → AreMembers leaders.now (slice_index order.now k) (values_in found.items k)) }
{
    let mut positions = vec![in alloc; 0u32; leaders.len()]?;
    note_positions(&mut positions, order);
    grouped(
        alloc,
        order.len(),
        &numbered_by(alloc, &positions, leaders)?,
    )
}

// Writes the position of each leader in the order.
fn note_positions(positions: &mut [u32], order: &[u32])
    requires few { length order.now ≤ 2 ^ 32 }
    requires within { All (λ l. l < length positions.old) order.now }
    requires distinct { (j k : ℕ) → j < k → k < length order.now → slice_index order.now j ≢ slice_index order.now k }
    ensures { (k : ℕ) → k < length order.now → slice_index positions.new (slice_index order.now k) ≡ k }
{
    for (position, leader) in order.iter().enumerate() {
        positions[*leader as usize] = position as u32;
    }
}

// Each node with the position of its leader.
fn numbered_by(alloc: Global, positions: &[u32], leaders: &[u32]) -> Result<Vec<(u32, u32)>, Memory>
    requires few { length leaders.now ≤ 2 ^ 32 }
    requires within { All (λ l. l < length positions.now) leaders.now }
    ensures { IfOk result (λ pairs. pairs.items ≡ numbered positions.now 0 leaders.now) }
{
    let mut pairs = Vec::with_capacity(alloc, leaders.len())?;
    for (node, leader) in leaders.iter().enumerate() {
        pairs.push((positions[*leader as usize], node as u32))?;
    }
    Ok(pairs)
}
