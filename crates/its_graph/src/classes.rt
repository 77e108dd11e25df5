//! The component of each node, named by one of its nodes.

ghost use Rattle.std.specs.Prelude.{◌≡◌, ℕ, ◌<◌, ◌≤◌, ◌^◌, length, All, IfOk, OnOk, slice_index, [], replicate};
ghost use Rattle.std.specs.List.{Contains};
ghost use Rattle.its_graph.specs.Groups.{values_in, Joins};
ghost use Rattle.its_graph.specs.Classes.{AreTables, AreClasses, Takes, TakesAll, AreClassNames, AreFirst, AreLeaders};
ghost use Rattle.its_graph.specs.Naming.{named, first_with};

use crate::flood::{CANDIDATE, KNOWN, UNKNOWN, fill, paint_all};
use crate::roots::roots_of;
use model::Memory;
use std::alloc::Global;

/// The least node of each node's component. `next` has each node's successors, `previous` its predecessors.
pub(crate) fn leaders_of(
    alloc: Global,
    next: &[Vec<u32>],
    previous: &[Vec<u32>],
) -> Result<Vec<u32>, Memory>
    requires few { length next.now ≤ 2 ^ 32 }
    requires tables { AreTables (length next.now) next.now previous.now }
    ensures { IfOk result (λ leaders. AreLeaders (Joins next.now) (length next.now) leaders.items) }
{
    let names = names_of(alloc, next, previous)?;
    first_of_each_name(alloc, &names)
}

// A name for each node's component: one of its nodes.
fn names_of(alloc: Global, next: &[Vec<u32>], previous: &[Vec<u32>]) -> Result<Vec<u32>, Memory>
    requires few { length next.now ≤ 2 ^ 32 }
    requires tables { AreTables (length next.now) next.now previous.now }
    ensures { IfOk result (λ names. AreClassNames (Joins next.now) (length next.now) names.items) }
{
    let roots = roots_of(alloc, next)?;
    let mut colors = vec![in alloc; UNKNOWN; next.len()]?;
    let mut names = vec![in alloc; 0u32; next.len()]?;
    take_roots(alloc, next, previous, &roots, &mut colors, &mut names)?;
    Ok(names)
}

// Finds the components of all nodes of a list.
fn take_roots(
    alloc: Global,
    next: &[Vec<u32>],
    previous: &[Vec<u32>],
    roots: &[u32],
    colors: &mut [u8],
    names: &mut [u32],
) -> Result<(), Memory>
    requires tables { AreTables (length colors.old) next.now previous.now }
    requires names_size { length names.old ≡ length colors.old }
    requires roots_within { All (λ root. root < length colors.old) roots.now }
    requires classes { AreClasses (Joins next.now) colors.old names.old }
    ensures { OnOk result (TakesAll (Joins next.now) colors.new names.new roots.now) }
{
    for root in roots {
        take_root(alloc, next, previous, colors, names, *root)?;
    }
    Ok(())
}

// Finds the component of a node, if it isn't known yet.
fn take_root(
    alloc: Global,
    next: &[Vec<u32>],
    previous: &[Vec<u32>],
    colors: &mut [u8],
    names: &mut [u32],
    root: u32,
) -> Result<(), Memory>
    requires tables { AreTables (length colors.old) next.now previous.now }
    requires names_size { length names.old ≡ length colors.old }
    requires root_within { root < length colors.old }
    requires classes { AreClasses (Joins next.now) colors.old names.old }
    ensures { OnOk result (Takes (Joins next.now) colors.old colors.new names.new root) }
{
    if colors[root as usize] == UNKNOWN {
        take_class(alloc, next, previous, colors, names, root)
    } else {
        Ok(())
    }
}

// Finds the component of an unknown node, and names it by the node: the nodes that have a path to it, among those to
// which it has one. Known nodes are whole components, so no path from the node and back meets one.
fn take_class(
    alloc: Global,
    next: &[Vec<u32>],
    previous: &[Vec<u32>],
    colors: &mut [u8],
    names: &mut [u32],
    root: u32,
) -> Result<(), Memory>
    requires tables { AreTables (length colors.old) next.now previous.now }
    requires names_size { length names.old ≡ length colors.old }
    requires root_within { root < length colors.old }
    requires root_unknown { slice_index colors.old root ≡ UNKNOWN }
    requires classes { AreClasses (Joins next.now) colors.old names.old }
    ensures { OnOk result (Takes (Joins next.now) colors.old colors.new names.new root) }
{
    let candidates = fill(alloc, previous, colors, root, UNKNOWN, CANDIDATE)?;
    let class = fill(alloc, next, colors, root, CANDIDATE, KNOWN)?;
    name_all(names, &class, root);
    let mut unknown_again = Vec::new(alloc);
    paint_all(colors, &mut unknown_again, &candidates, CANDIDATE, UNKNOWN)
}

/// Gives the nodes of a list a name.
pub(crate) fn name_all(names: &mut [u32], nodes: &[u32], name: u32)
    requires { All (λ b. b < length names.old) nodes.now }
    ensures { names.new ≡ named name nodes.now names.old }
{
    for node in nodes {
        names[*node as usize] = name;
    }
}

// For each node, the first node with the same name.
fn first_of_each_name(alloc: Global, names: &[u32]) -> Result<Vec<u32>, Memory>
    requires few { length names.now ≤ 2 ^ 32 }
    requires within { All (λ name. name < length names.now) names.now }
    ensures { IfOk result (λ leaders. AreFirst names.now leaders.items) }
{
    let mut first = vec![in alloc; None; names.len()]?;
    let mut leaders = Vec::with_capacity(alloc, names.len())?;
    add_first(names, &mut first, &mut leaders)?;
    Ok(leaders)
}

// Appends for each node the first node with its name, by a table that is empty at first.
fn add_first(names: &[u32], first: &mut [Option<u32>], leaders: &mut Vec<u32>) -> Result<(), Memory>
    requires few { length names.now ≤ 2 ^ 32 }
    requires within { All (λ name. name < length names.now) names.now }
    requires empty { leaders.old.items ≡ [] }
    requires table { first.old ≡ replicate (length names.now) None }
    ensures { OnOk result (AreFirst names.now leaders.new.items) }
{
    for (node, name) in names.iter().enumerate() {
        leaders.push(first_or(first, *name as usize, node as u32))?;
    }
    Ok(())
}

// The first node with a name; it is this one if the table has none yet.
fn first_or(first: &mut [Option<u32>], name: usize, node: u32) -> u32
    requires { name < length first.old }
    ensures { (first.new, result) ≡ first_with name node first.old }
{
    match first[name] {
        Some(leader) => leader,
        None => {
            first[name] = Some(node);
            node
        }
    }
}
