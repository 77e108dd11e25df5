//! The order in which nodes are visited so that the search for components takes linear time. The order affects only the
//! time.

ghost use Rattle.std.specs.Prelude.{◌≡◌, ℕ, ◌<◌, ◌≤◌, ◌^◌, length, All, IfOk, OnOk};
ghost use Rattle.std.specs.List.{Contains};
ghost use Rattle.its_graph.specs.Groups.{values_in};
ghost use Rattle.its_graph.specs.Walks.{IsWalk};

use model::Memory;
use std::alloc::Global;

/// The nodes in the reverse order in which a depth-first walk leaves them, and then all of them once more.
pub(crate) fn roots_of(alloc: Global, next: &[Vec<u32>]) -> Result<Vec<u32>, Memory>
    requires few { length next.now ≤ 2 ^ 32 }
    requires edges_within { (a : ℕ) → All (λ b. b < length next.now) (values_in next.now a) }
    ensures within { IfOk result (λ roots. All (λ a. a < length next.now) roots.items) }
    ensures all { IfOk result (λ roots. (a : ℕ) → a < length next.now → Contains roots.items a) }
{
    let mut roots = left_last(alloc, next)?;
    for node in 0..next.len() {
        roots.push(node as u32)?;
    }
    Ok(roots)
}

// The nodes in the reverse order in which a depth-first walk leaves them.
fn left_last(alloc: Global, next: &[Vec<u32>]) -> Result<Vec<u32>, Memory>
    requires few { length next.now ≤ 2 ^ 32 }
    requires edges_within { (a : ℕ) → All (λ b. b < length next.now) (values_in next.now a) }
    ensures { IfOk result (λ nodes. All (λ a. a < length next.now) nodes.items) }
{
    let mut walk = Walk {
        path: Vec::new(alloc),
        seen: vec![in alloc; false; next.len()]?,
        left: Vec::new(alloc),
        start: 0,
    };
    for _ in 0..u64::MAX {
        if !walk.step(next)? {
            break;
        }
    }
    let mut nodes = walk.left;
    nodes.reverse();
    Ok(nodes)
}

// A node on the path of a walk, and the number of its successors that were visited.
#[derive(Debug, Drop)]
struct Visit {
    node: u32,
    done: usize,
}

// A depth-first walk: the path to the current node, which nodes were seen, the nodes that were left, and where to begin
// next.
#[derive(Debug, Drop)]
struct Walk {
    path: Vec<Visit>,
    seen: Vec<bool>,
    left: Vec<u32>,
    start: usize,
}

impl Walk {
    // Takes a step of the walk, and returns whether there was one.
    fn step(&mut self, next: &[Vec<u32>]) -> Result<bool, Memory>
        requires few { length next.now ≤ 2 ^ 32 }
        requires edges_within { (a : ℕ) → All (λ b. b < length next.now) (values_in next.now a) }
        requires walk { IsWalk (length next.now) self.old }
        ensures { OnOk result (IsWalk (length next.now) self.new) }
    {
        match self.path.pop() {
            Some(visit) => {
                self.go_on(next, visit)?;
                Ok(true)
            }
            None => self.begin(next.len()),
        }
    }

    // Goes to the next successor of a node, or leaves the node.
    fn go_on(&mut self, next: &[Vec<u32>], visit: Visit) -> Result<(), Memory>
        requires edges_within { (a : ℕ) → All (λ b. b < length next.now) (values_in next.now a) }
        requires walk { IsWalk (length next.now) self.old }
        requires node_within { visit.node < length next.now }
        ensures { OnOk result (IsWalk (length next.now) self.new) }
    {
        let Visit { node, done } = visit;
        match next[node as usize].get(done) {
            Some(successor) => {
                self.path.push(Visit {
                    node,
                    done: done + 1,
                })?;
                self.enter(*successor)
            }
            None => {
                self.left.push(node)?;
                Ok(())
            }
        }
    }

    // Begins at the next node, and returns whether there is one.
    fn begin(&mut self, nodes: usize) -> Result<bool, Memory>
        requires few { nodes ≤ 2 ^ 32 }
        requires walk { IsWalk nodes self.old }
        ensures { OnOk result (IsWalk nodes self.new) }
    {
        if self.start >= nodes {
            return Ok(false);
        }
        let node = self.start as u32;
        self.start += 1;
        self.enter(node)?;
        Ok(true)
    }

    // Enters a node that wasn't seen.
    fn enter(&mut self, node: u32) -> Result<(), Memory>
        requires within { node < length self.old.seen.items }
        requires walk { IsWalk (length self.old.seen.items) self.old }
        ensures { OnOk result (IsWalk (length self.old.seen.items) self.new) }
    {
        if !self.seen[node as usize] {
            self.seen[node as usize] = true;
            self.path.push(Visit { node, done: 0 })?;
        }
        Ok(())
    }
}
