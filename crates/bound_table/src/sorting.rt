//! Sorts parts by merging.

ghost use Rattle.std.specs.Prelude.{◌≡◌, ◌++◌, IfOk, OnOk};
ghost use Rattle.bound_expr.specs.Views.{bound_of, bounds_of};
ghost use Rattle.bound_table.specs.Sorting.{sorted, merged, coming_before, not_before, starts_before};

use crate::kinds::Kind;
use crate::order::order;
use bound_expr::{Bound, Memory};
use std::alloc::Global;
use std::cmp::Ordering;
use std::collections::VecDeque;

// The parts in the order of the kind, by merging; equal parts keep their order.
pub(crate) fn sort(alloc: Global, kind: Kind, parts: Vec<Bound>) -> Result<Vec<Bound>, Memory>
    ensures { IfOk result (λ r. bounds_of r.items ≡ sorted kind (bounds_of parts.items)) }
{
    if parts.len() < 2 {
        return Ok(parts);
    }
    let mut prefix = parts;
    let half = prefix.len() / 2;
    let rest = prefix.split_off(half)?;
    let prefix = sort(alloc, kind, prefix)?;
    let rest = sort(alloc, kind, rest)?;
    merge(alloc, kind, prefix, rest)
}

// Two lists in order merged.
fn merge(
    alloc: Global,
    kind: Kind,
    first: Vec<Bound>,
    second: Vec<Bound>,
) -> Result<Vec<Bound>, Memory>
    ensures { IfOk result (λ r. bounds_of r.items ≡ merged kind (bounds_of first.items) (bounds_of second.items)) }
{
    let mut rest = VecDeque::from(second);
    let mut all = Vec::new(alloc);
    for part in first {
        move_before(kind, &part, &mut rest, &mut all)?;
        all.push(part)?;
    }
    move_all(rest, &mut all)?;
    Ok(all)
}

// Moves the longest prefix of parts that come before the part.
fn move_before(
    kind: Kind,
    part: &Bound,
    rest: &mut VecDeque<Bound>,
    all: &mut Vec<Bound>,
) -> Result<(), Memory>
    ensures moved { OnOk result (bounds_of all.new.items ≡ bounds_of all.old.items
        ++ coming_before kind (bound_of part.now) (bounds_of rest.old.items)) }
    ensures left { OnOk result (bounds_of rest.new.items ≡ not_before kind (bound_of part.now)
        (bounds_of rest.old.items)) }
{
    while comes_first(kind, rest, part) {
        if let Some(first) = rest.pop_front() {
            all.push(first)?;
        }
    }
    Ok(())
}

// Whether there is a first one in the rest, and it comes before the part.
fn comes_first(kind: Kind, rest: &VecDeque<Bound>, part: &Bound) -> bool
    ensures { result ≡ starts_before kind (bound_of part.now) (bounds_of rest.now.items) }
{
    match rest.front() {
        Some(first) => order(kind, first, part) == Ordering::Less,
        None => false,
    }
}

fn move_all(rest: VecDeque<Bound>, all: &mut Vec<Bound>) -> Result<(), Memory>
    ensures { OnOk result (bounds_of all.new.items ≡ bounds_of all.old.items ++ bounds_of rest.items) }
{
    let mut rest = rest;
    while let Some(first) = rest.pop_front() {
        all.push(first)?;
    }
    Ok(())
}
