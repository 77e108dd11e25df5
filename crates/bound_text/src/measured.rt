//! Bounds with their numbers of nodes and levels.

ghost use Rattle.std.specs.Prelude.{◌≡◌, ◌^◌, ◌-◌, min, OnOk};
ghost use Rattle.text_core.specs.model.Bounds.{NoParts, Input};
ghost use Rattle.bound_expr.specs.Views.{bound_of, bounds_of, parts_of};
ghost use Rattle.bound_expr.specs.Measure.{node_count, node_count_of_all, depth_of, maximum_depth};
ghost use Rattle.bound_text.specs.Shapes.{with_part};

use bound_expr::{Bound, Memory};
use std::alloc::Global;

/// Bounds, with the number of their nodes in all and the maximum of their depths.
#[derive(Drop)]
pub struct Measured {
    pub bounds: Vec<Bound>,
    pub nodes: u64,
    pub depth: u32,
    ghost counted: { nodes ≡ min (node_count_of_all (parts_of (bounds_of bounds.items))) (2 ^ 64 - 1) },
    ghost deep: { depth ≡ min (maximum_depth (parts_of (bounds_of bounds.items))) (2 ^ 32 - 1) },
}

impl Measured {
    /// No bounds.
    pub(crate) fn new(alloc: Global) -> Measured
        ensures { parts_of (bounds_of result.bounds.items) ≡ NoParts }
    {
        Measured {
            bounds: Vec::new(alloc),
            nodes: 0,
            depth: 0,
        }
    }

    /// Appends a bound.
    pub(crate) fn push(&mut self, bound: Bound) -> Result<(), Memory>
        ensures { OnOk result (parts_of (bounds_of self.new.bounds.items) ≡ with_part
            (parts_of (bounds_of self.old.bounds.items)) (bound_of bound)) }
    {
        self.push_counted(Counted::new(bound))
    }

    /// Appends a bound whose measure is known.
    #[tactic(auto, using(crate::proofs::PartLaws::pushes))]
    pub(crate) fn push_counted(&mut self, counted: Counted) -> Result<(), Memory>
        ensures { OnOk result (parts_of (bounds_of self.new.bounds.items) ≡ with_part
            (parts_of (bounds_of self.old.bounds.items)) (bound_of counted.bound)) }
    {
        let Counted {
            bound,
            nodes,
            depth,
        } = counted;
        self.bounds.push(bound)?;
        self.nodes = self.nodes.saturating_add(nodes);
        self.depth = self.depth.max(depth);
        Ok(())
    }
}

/// A bound with its numbers of nodes and levels.
#[derive(Drop)]
pub struct Counted {
    pub bound: Bound,
    pub nodes: u64,
    pub depth: u32,
    ghost counted: { nodes ≡ min (node_count (bound_of bound)) (2 ^ 64 - 1) },
    ghost deep: { depth ≡ min (depth_of (bound_of bound)) (2 ^ 32 - 1) },
}

impl Counted {
    /// The bound with its measure. It goes through the bound once.
    pub(crate) fn new(bound: Bound) -> Counted
        ensures { bound_of result.bound ≡ bound_of bound }
    {
        let (nodes, depth) = bound.measure();
        Counted {
            bound,
            nodes,
            depth,
        }
    }
}
