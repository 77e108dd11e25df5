//! The size of a signed bound.

ghost use Rattle.std.specs.Prelude.{◌≡◌, ◌+◌, ◌-◌, ◌^◌, min, length};
ghost use Rattle.poly_terms.specs.Views.{monomials_of};
ghost use Rattle.signed_bounds.specs.Views.{signed_of, signeds_of, parts_of};
ghost use Rattle.signed_bounds.specs.Measure.{node_count as nodes_of, node_count_of_all, polynomial_nodes};
ghost use Rattle.signed_bounds.specs.Measure.{depth_of, maximum_depth};
ghost use Rattle.signed_bounds.specs.Measure.{is_large as is_large_bound, exceeds_limits as is_beyond};
ghost use Rattle.signed_bounds.specs.Measure.{has_large_constant as has_large, some_have_large_constant as some_have};

use crate::limits::{CONSTANT_LIMIT, DEPTH_LIMIT, NODE_LIMIT};
use crate::signed::Signed;
use poly_terms::Monomial;

impl Signed {
    /// The number of nodes and the number of levels. A node without parts has one level. A polynomial has a node for
    /// each monomial and for each of its factors.
    ///
    /// Each is the lesser of the exact number and the maximum number of its type.
    pub fn measure(&self) -> (u64, u32)
        ensures nodes { result.0 ≡ min (nodes_of (signed_of self.now)) (2 ^ 64 - 1) }
        ensures depth { result.1 ≡ min (depth_of (signed_of self.now)) (2 ^ 32 - 1) }
    {
        (self.node_count(), levels_in(self))
    }

    /// The number of nodes, or the maximum number of its type where there are more.
    pub fn node_count(&self) -> u64
        ensures { result ≡ min (nodes_of (signed_of self.now)) (2 ^ 64 - 1) }
    {
        nodes_in(self)
    }

    /// Whether this bound has more nodes than `NODE_LIMIT`, or more levels than `DEPTH_LIMIT`.
    pub fn is_large(&self) -> bool
        ensures { result ≡ is_large_bound (signed_of self.now) }
    {
        let (nodes, depth) = self.measure();
        nodes > NODE_LIMIT || depth > DEPTH_LIMIT
    }

    /// Whether this bound is large, or has a constant or a divisor over `CONSTANT_LIMIT`.
    pub fn exceeds_limits(&self) -> bool
        ensures { result ≡ is_beyond (signed_of self.now) }
    {
        self.is_large() || has_large_constant(self)
    }
}

#[cycle(nodes)]
fn nodes_in(bound: &Signed) -> u64
    ensures { result ≡ min (nodes_of (signed_of bound.now)) (2 ^ 64 - 1) }
{
    match bound {
        Signed::Const(_) => 1,
        Signed::Part(p) => nodes_in_monomials(&p.terms).saturating_add(1),
        Signed::Sum(parts) | Signed::Prod(parts) | Signed::Max(parts) => nodes_in_all(
            parts,
        ).saturating_add(1),
        Signed::Min(first, parts) => nodes_in(first)
            .saturating_add(nodes_in_all(parts))
            .saturating_add(1),
        Signed::Quotient(part, _) | Signed::Root(part) | Signed::Power(_, part) => nodes_in(
            part,
        ).saturating_add(1),
    }
}

// The number of nodes of all the parts, or the maximum number of its type where it is greater.
#[cycle(nodes)]
fn nodes_in_all(parts: &[Signed]) -> u64
    ensures { result ≡ min (node_count_of_all (parts_of (signeds_of parts.now))) (2 ^ 64 - 1) }
{
    let mut nodes = 0u64;
    for part in parts {
        nodes = nodes.saturating_add(nodes_in(part));
    }
    nodes
}

// The number of nodes of monomials, or the maximum number of its type where it is greater.
fn nodes_in_monomials(monomials: &[Monomial]) -> u64
    ensures { result ≡ min (polynomial_nodes (monomials_of monomials.now)) (2 ^ 64 - 1) }
{
    let mut nodes = 0u64;
    for monomial in monomials {
        nodes = nodes.saturating_add(nodes_in_monomial(monomial));
    }
    nodes
}

// A monomial's node and those of its factors, or the maximum number of its type where there are more.
fn nodes_in_monomial(monomial: &Monomial) -> u64
    ensures { result ≡ min (1 + length monomial.now.vars.items) (2 ^ 64 - 1) }
{
    (monomial.vars.len() as u64).saturating_add(1)
}

#[cycle(levels)]
fn levels_in(bound: &Signed) -> u32
    ensures { result ≡ min (depth_of (signed_of bound.now)) (2 ^ 32 - 1) }
{
    match bound {
        Signed::Const(_) | Signed::Part(_) => 1,
        Signed::Sum(parts) | Signed::Prod(parts) | Signed::Max(parts) => most_levels_in(
            parts,
        ).saturating_add(1),
        Signed::Min(first, parts) => levels_in(first)
            .max(most_levels_in(parts))
            .saturating_add(1),
        Signed::Quotient(part, _) | Signed::Root(part) | Signed::Power(_, part) => levels_in(
            part,
        ).saturating_add(1),
    }
}

#[cycle(levels)]
fn most_levels_in(parts: &[Signed]) -> u32
    ensures { result ≡ min (maximum_depth (parts_of (signeds_of parts.now))) (2 ^ 32 - 1) }
{
    let mut most = 0u32;
    for part in parts {
        most = most.max(levels_in(part));
    }
    most
}

// Whether some constant or divisor is over the limit.
#[cycle(constants)]
fn has_large_constant(bound: &Signed) -> bool
    ensures { result ≡ has_large (signed_of bound.now) }
{
    match bound {
        Signed::Const(c) => *c > CONSTANT_LIMIT,
        Signed::Part(_) => false,
        Signed::Sum(parts) | Signed::Prod(parts) | Signed::Max(parts) => {
            some_have_large_constant(parts)
        }
        Signed::Min(first, parts) => has_large_constant(first) || some_have_large_constant(parts),
        Signed::Quotient(part, divisor) => *divisor > CONSTANT_LIMIT || has_large_constant(part),
        Signed::Root(part) | Signed::Power(_, part) => has_large_constant(part),
    }
}

#[cycle(constants)]
fn some_have_large_constant(parts: &[Signed]) -> bool
    ensures { result ≡ some_have (parts_of (signeds_of parts.now)) }
{
    for part in parts {
        if has_large_constant(part) {
            return true;
        }
    }
    false
}
