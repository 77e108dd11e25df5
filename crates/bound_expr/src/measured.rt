//! The size of a bound: its number of nodes and of levels, and whether it is over a limit.

ghost use Rattle.std.specs.Prelude.{◌≡◌, ◌-◌, ◌^◌, min, slice_index};
ghost use Rattle.bound_expr.specs.Views.{bound_of, bounds_of, parts_of};
ghost use Rattle.bound_expr.specs.Measure.{node_count, node_count_of_all, depth_of, maximum_depth};
ghost use Rattle.bound_expr.specs.Measure.{is_large as is_large_bound};

use crate::bound::Bound;
use crate::limits::{DEPTH_LIMIT, NODE_LIMIT};

impl Bound {
    /// The number of nodes and the number of levels; a node without parts has one level.
    ///
    /// Each is the lesser of the exact number and the maximum number of its type.
    pub fn measure(&self) -> (u64, u32)
        ensures nodes { result.0 ≡ min (node_count (bound_of self.now)) (2 ^ 64 - 1) }
        ensures depth { result.1 ≡ min (depth_of (bound_of self.now)) (2 ^ 32 - 1) }
    {
        (nodes_in(self), levels_in(self))
    }

    /// Whether this bound has more nodes than `NODE_LIMIT`, or more levels than `DEPTH_LIMIT`.
    pub fn is_large(&self) -> bool
        ensures { result ≡ is_large_bound (bound_of self.now) }
    {
        let (nodes, depth) = self.measure();
        nodes > NODE_LIMIT || depth > DEPTH_LIMIT
    }
}

#[cycle(nodes)]
fn nodes_in(bound: &Bound) -> u64
    ensures { result ≡ min (node_count (bound_of bound.now)) (2 ^ 64 - 1) }
{
    match bound {
        Bound::Const(_) | Bound::Var(_) => 1,
        Bound::Sum(parts) | Bound::Prod(parts) | Bound::Max(parts) => nodes_in_all(
            parts,
        ).saturating_add(1),
        Bound::Power(_, exponent) => nodes_in(exponent).saturating_add(1),
    }
}

/// The number of nodes of all the parts, or the maximum number of its type where it is greater.
#[cycle(nodes)]
pub fn nodes_in_all(parts: &[Bound]) -> u64
    ensures { result ≡ min (node_count_of_all (parts_of (bounds_of parts.now))) (2 ^ 64 - 1) }
{
    let mut nodes = 0u64;
    for part in parts {
        nodes = nodes.saturating_add(nodes_in(part));
    }
    nodes
}

#[cycle(levels)]
fn levels_in(bound: &Bound) -> u32
    ensures { result ≡ min (depth_of (bound_of bound.now)) (2 ^ 32 - 1) }
{
    match bound {
        Bound::Const(_) | Bound::Var(_) => 1,
        Bound::Sum(parts) | Bound::Prod(parts) | Bound::Max(parts) => most_levels_in(
            parts,
        ).saturating_add(1),
        Bound::Power(_, exponent) => levels_in(exponent).saturating_add(1),
    }
}

#[cycle(levels)]
fn most_levels_in(parts: &[Bound]) -> u32
    ensures { result ≡ min (maximum_depth (parts_of (bounds_of parts.now))) (2 ^ 32 - 1) }
{
    let mut most = 0u32;
    for part in parts {
        most = most.max(levels_in(part));
    }
    most
}
