//! Flooding: the nodes that are reached from a node along edges, through nodes of one colour, get another colour.

ghost use Rattle.std.specs.Prelude.{◌≡◌, ◌≢◌, ℕ, ◌<◌, length, All, IfOk, OnOk, slice_index};
ghost use Rattle.its_graph.specs.Groups.{values_in, Joins};
ghost use Rattle.its_graph.specs.Floods.{painted, all_painted, Fills};

use model::Memory;
use std::alloc::Global;

/// The colours of nodes during a search: not yet in a component, perhaps in the current one, and in one.
pub(crate) const UNKNOWN: u8 = 0;

pub(crate) const CANDIDATE: u8 = 1;

pub(crate) const KNOWN: u8 = 2;

/// Gives each node of the colour `old` that a path of such nodes leads to from `start` the colour `new`, and lists
/// them. `next` has the list of each node's successors. The time is linear in the nodes found and their edges.
pub(crate) fn fill(
    alloc: Global,
    next: &[Vec<u32>],
    colors: &mut [u8],
    start: u32,
    old: u8,
    new: u8,
) -> Result<Vec<u32>, Memory>
    requires one_each { length next.now ≡ length colors.old }
    requires edges_in_range { (a : ℕ) → All (λ b. b < length colors.old) (values_in next.now a) }
    requires start_in_range { start < length colors.old }
    requires start_old { slice_index colors.old start ≡ old }
    requires other { new ≢ old }
    ensures { IfOk result (λ found. Fills (Joins next.now) colors.old colors.new start old new found.items) }
{
    let mut found = Vec::new(alloc);
    paint(colors, &mut found, start, old, new)?;
    let mut done = 0;
    while done < found.len() {
        let node = found[done];
        paint_all(colors, &mut found, &next[node as usize], old, new)?;
        done += 1;
    }
    Ok(found)
}

/// Gives each node of a list that has the colour `old` the colour `new`, and lists it.
pub(crate) fn paint_all(
    colors: &mut [u8],
    found: &mut Vec<u32>,
    nodes: &[u32],
    old: u8,
    new: u8,
) -> Result<(), Memory>
    requires { All (λ b. b < length colors.old) nodes.now }
    ensures { OnOk result
        (record { colors = colors.new; found = found.new.items }
        ≡ all_painted old new nodes.now (record { colors = colors.old; found = found.old.items })) }
{
    for node in nodes {
        paint(colors, found, *node, old, new)?;
    }
    Ok(())
}

// Gives a node that has the colour `old` the colour `new`, and lists it.
fn paint(colors: &mut [u8], found: &mut Vec<u32>, node: u32, old: u8, new: u8) -> Result<(), Memory>
    requires { node < length colors.old }
    ensures { OnOk result
        (record { colors = colors.new; found = found.new.items }
        ≡ painted old new node (record { colors = colors.old; found = found.old.items })) }
{
    if colors[node as usize] == old {
        colors[node as usize] = new;
        found.push(node)?;
    }
    Ok(())
}
