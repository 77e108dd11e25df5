//! Which components have an edge inside.

ghost use Rattle.std.specs.Prelude.{◌≡◌, ℕ, ◌<◌, map, length, All, IfOk, replicate, false};
ghost use Rattle.cert_types.specs.Views.{result_variable_of};
ghost use Rattle.its_graph.specs.Groups.{items_of};
ghost use Rattle.rvg_components.specs.Listing.{members_of, result_variable_at};
ghost use Rattle.rvg_components.specs.Inside.{marked, has_inside};

use crate::component::Component;
use cert_types::ResultVariable;
use model::Memory;
use std::alloc::Global;

// Sets the flags of nodes that have an edge to themselves.
fn mark_own(own: &mut [bool], edges: &[(u32, u32)])
    requires { All (λ e. e.0 < length own.old) edges.now }
    ensures { own.new ≡ marked edges.now own.old }
{
    for (from, to) in edges {
        if *from == *to {
            own[*from as usize] = true;
        }
    }
}

/// Which nodes have an edge to themselves.
pub(crate) fn own_edges(
    alloc: Global,
    nodes: usize,
    edges: &[(u32, u32)],
) -> Result<Vec<bool>, Memory>
    requires { All (λ e. e.0 < nodes) edges.now }
    ensures { IfOk result (λ own. own.items ≡ marked edges.now (replicate nodes false)) }
{
    let mut own = vec![in alloc; false; nodes]?;
    mark_own(&mut own, edges);
    Ok(own)
}

// Whether a component has an edge inside: it has two or more nodes, or its only one has an edge to itself.
fn is_looping(own: &[bool], nodes: &[u32]) -> bool
    requires { All (λ a. a < length own.now) nodes.now }
    ensures { result ≡ has_inside own.now nodes.now }
{
    match nodes {
        [] => false,
        [only] => own[*only as usize],
        _ => true,
    }
}

// The places with these numbers.
fn places_at(
    alloc: Global,
    result_variables: &[ResultVariable],
    nodes: &[u32],
) -> Result<Vec<ResultVariable>, Memory>
    requires { All (λ a. a < length result_variables.now) nodes.now }
    ensures { IfOk result (λ places. map result_variable_of places.items ≡ map (result_variable_at (map result_variable_of result_variables.now)) nodes.now) }
{
    let mut places = Vec::with_capacity(alloc, nodes.len())?;
    for node in nodes {
        places.push(result_variables[*node as usize])?;
    }
    Ok(places)
}

/// The components as places, each with whether it loops.
pub(crate) fn placed(
    alloc: Global,
    result_variables: &[ResultVariable],
    own: &[bool],
    components: &[Vec<u32>],
) -> Result<Vec<Component>, Memory>
    requires one_each { length own.now ≡ length result_variables.now }
    requires within { All (λ c. All (λ a. a < length result_variables.now) c.items) components.now }
    ensures members { IfOk result (λ found. map members_of found.items
        ≡ map (map (result_variable_at (map result_variable_of result_variables.now))) (map items_of components.now)) }
    ensures looping { IfOk result (λ found. map (λ c. c.looping) found.items
        ≡ map (has_inside own.now) (map items_of components.now)) }
{
    let mut found = Vec::with_capacity(alloc, components.len())?;
    for nodes in components {
        let members = places_at(alloc, result_variables, nodes)?;
        let looping = is_looping(own, nodes);
        found.push(Component { members, looping })?;
    }
    Ok(found)
}
