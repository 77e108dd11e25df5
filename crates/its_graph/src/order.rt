//! The order of components, by their leaders: each comes as soon as all that it needs are listed, the least leader
//! first.

ghost use Rattle.std.specs.Prelude.{◌≡◌, ◌↔◌, ℕ, ◌+◌, ◌<◌, ◌≤◌, ◌^◌, ◌∷◌, ◌++◌, [], length, All, IfOk, OnOk, not};
ghost use Rattle.std.specs.Prelude.{count_by, if◌then◌else◌, ◌==◌};
ghost use Rattle.std.specs.List.{Contains};
ghost use Rattle.its_graph.specs.Groups.{values_in, IsPair, Joins};
ghost use Rattle.its_graph.specs.Classes.{AreLeaders};
ghost use Rattle.its_graph.specs.Orders.{IsLeader, Needs, AreOrderable, IsSorting, AreLeadersInOrder, IsPopped};
ghost use Rattle.its_graph.specs.Orders.{AreSizes};
ghost use Rattle.its_graph.specs.Orders.{IsFresh, Settles, Skips, needs_among};

use crate::pairs::{empty_lists, grouped};
use crate::tables::{add_to, empty_set, no_marks, push_to, take_from, take_least, zeros};
use model::Memory;
use std::alloc::Global;
use std::collections::BTreeSet;

/// The leaders of the components in the order of the components.
pub(crate) fn order_of(
    alloc: Global,
    edges: &[(u32, u32)],
    leaders: &[u32],
) -> Result<Vec<u32>, Memory>
    requires few { length leaders.now ≤ 2 ^ 32 }
    requires edges_within { All (λ e. (e.0 < length leaders.now) × (e.1 < length leaders.now)) edges.now }
    requires leaders_are { AreLeaders (IsPair edges.now) (length leaders.now) leaders.now }
    ensures { IfOk result (λ order. AreLeadersInOrder (Needs (IsPair edges.now) leaders.now) leaders.now order.items) }
{
    let needs = grouped(alloc, leaders.len(), &needs_of(alloc, edges, leaders)?)?;
    sorted(alloc, &needs, leaders, &own_leaders(alloc, leaders)?)
}

// The pairs of a leader and another one from whose component an edge leads to the first one's component.
fn needs_of(alloc: Global, edges: &[(u32, u32)], leaders: &[u32]) -> Result<Vec<(u32, u32)>, Memory>
    requires edges_within { All (λ e. (e.0 < length leaders.now) × (e.1 < length leaders.now)) edges.now }
    ensures { IfOk result (λ needs. needs.items ≡ needs_among leaders.now edges.now) }
{
    let mut needs = Vec::new(alloc);
    for (from, to) in edges {
        let leader = leaders[*to as usize];
        let need = leaders[*from as usize];
        if need != leader {
            needs.push((leader, need))?;
        }
    }
    Ok(needs)
}

// The nodes that are their own leaders.
fn own_leaders(alloc: Global, leaders: &[u32]) -> Result<Vec<u32>, Memory>
    requires few { length leaders.now ≤ 2 ^ 32 }
    ensures { IfOk result (λ own. (c : ℕ) → Contains own.items c ↔ IsLeader leaders.now c) }
{
    let mut own = Vec::new(alloc);
    for (node, leader) in leaders.iter().enumerate() {
        push_if_same(&mut own, node as u32, *leader)?;
    }
    Ok(own)
}

// Appends a node if it is its own leader.
fn push_if_same(own: &mut Vec<u32>, node: u32, leader: u32) -> Result<(), Memory>
    ensures { OnOk result (own.new.items ≡ (if leader == node then own.old.items ++ node ∷ [] else own.old.items)) }
{
    if leader == node {
        own.push(node)?;
    }
    Ok(())
}

// The leaders in their order; `needs` has the needs of each.
fn sorted(
    alloc: Global,
    needs: &[Vec<u32>],
    leaders: &[u32],
    own: &[u32],
) -> Result<Vec<u32>, Memory>
    requires orderable { AreOrderable leaders.now needs.now }
    requires own_leaders { (c : ℕ) → Contains own.now c ↔ IsLeader leaders.now c }
    ensures { IfOk result (λ order. AreLeadersInOrder (Joins needs.now) leaders.now order.items) }
{
    let mut sorting = Sorting::new(alloc, leaders.len())?;
    sorting.settle_all(needs, leaders, own)?;
    while let Some(leader) = take_least(&mut sorting.ready) {
        sorting.list(alloc, needs, leaders, leader)?;
    }
    Ok(sorting.order)
}

// The state of sorting: how many needs of each leader are known to be listed, which leaders wait for which, which are
// listed, which may come next, and the result so far.
#[derive(Debug, Drop)]
struct Sorting {
    passed: Vec<usize>,
    waiting: Vec<Vec<u32>>,
    is_listed: Vec<bool>,
    ready: BTreeSet<u32>,
    order: Vec<u32>,
}

impl Sorting {
    // The state in which nothing is known yet.
    fn new(alloc: Global, count: usize) -> Result<Sorting, Memory>
        ensures { IfOk result (IsFresh count) }
    {
        Ok(Sorting {
            passed: zeros(alloc, count)?,
            waiting: empty_lists(alloc, count)?,
            is_listed: no_marks(alloc, count)?,
            ready: empty_set(alloc),
            order: Vec::new(alloc),
        })
    }

    // Lists a leader, and settles those that waited for it.
    fn list(
        &mut self,
        alloc: Global,
        needs: &[Vec<u32>],
        leaders: &[u32],
        leader: u32,
    ) -> Result<(), Memory>
        requires orderable { AreOrderable leaders.now needs.now }
        requires popped { IsPopped needs.now leaders.now leader self.old }
        ensures sorted { OnOk result (IsSorting needs.now leaders.now [] self.new) }
        ensures fewer { OnOk result (count_by not self.new.is_listed.items + 1
            ≡ count_by not self.old.is_listed.items) }
    {
        self.order.push(leader)?;
        self.is_listed[leader as usize] = true;
        let waiting = take_from(alloc, &mut self.waiting, leader as usize);
        self.settle_all(needs, leaders, &waiting)
    }

    // Settles each leader of a list: it becomes ready, or waits for another.
    fn settle_all(
        &mut self,
        needs: &[Vec<u32>],
        leaders: &[u32],
        unsettled: &[u32],
    ) -> Result<(), Memory>
        requires orderable { AreOrderable leaders.now needs.now }
        requires sorting { IsSorting needs.now leaders.now unsettled.now self.old }
        ensures sorted { OnOk result (IsSorting needs.now leaders.now [] self.new) }
        ensures marks { OnOk result (self.new.is_listed.items ≡ self.old.is_listed.items) }
    {
        for leader in unsettled {
            self.settle(needs, *leader)?;
        }
        Ok(())
    }

    // Settles a leader: it becomes ready if all that it needs is listed; else it waits for one of its needs.
    fn settle(&mut self, needs: &[Vec<u32>], leader: u32) -> Result<(), Memory>
        requires within { leader < length needs.now }
        requires needs_within { All (λ d. d < length needs.now) (values_in needs.now leader) }
        requires sizes { AreSizes (length needs.now) self.old }
        ensures { OnOk result (Settles needs.now leader self.old self.new) }
    {
        let row = &needs[leader as usize];
        let passed = skip_listed(row, &self.is_listed, self.passed[leader as usize]);
        self.passed[leader as usize] = passed;
        match row.get(passed) {
            Some(need) => push_to(&mut self.waiting, *need as usize, leader),
            None => add_to(&mut self.ready, leader),
        }
    }
}

// The first position, from `from` on, of a need that isn't listed; the end if there is none.
fn skip_listed(needs: &[u32], is_listed: &[bool], from: usize) -> usize
    requires { All (λ d. d < length is_listed.now) needs.now }
    ensures { Skips needs.now is_listed.now from result }
{
    let mut position = from;
    while position < needs.len() && is_listed[needs[position] as usize] {
        position += 1;
    }
    position
}
