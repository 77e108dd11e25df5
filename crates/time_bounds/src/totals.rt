//! Computes the total: the rewritten sum of what each rule spends at most.

ghost use Rattle.std.specs.Prelude.{◌≡◌, None, Some, length, MatchOption, IfOk};
ghost use Rattle.std.specs.Option.{option_map};
ghost use Rattle.bound_expr.specs.Views.{bound_of, bounds_of, parts_of};
ghost use Rattle.time_bounds.specs.Totals.{time_in, spent_by, spendings_by, known_parts, total_of};

use bound_expr::Bound;
use bound_table::rewrite;
use model::Memory;
use outcome::{CostEntry, TimeEntry};
use std::alloc::Global;

/// The bound on what all steps cost together: the rewritten sum, in the order of rules, of the bound on the cost of
/// each rule that has one, and of the time of each other rule. There is none where one of these is missing.
///
/// # Errors
///
/// `Memory` where an allocation fails.
pub fn total(
    alloc: Global,
    times: &[TimeEntry],
    costs: &[Option<CostEntry>],
) -> Result<Option<Bound>, Memory>
    requires one_each { length times.now ≡ length costs.now }
    ensures { IfOk result (λ total. option_map bound_of total ≡ total_of (spendings_by times.now costs.now)) }
{
    match known_bounds(alloc, times, costs)? {
        Some(bounds) => Ok(Some(rewrite(alloc, &Bound::Sum(bounds))?)),
        None => Ok(None),
    }
}

// What each rule spends at most, where all of this is known.
fn known_bounds(
    alloc: Global,
    times: &[TimeEntry],
    costs: &[Option<CostEntry>],
) -> Result<Option<Vec<Bound>>, Memory>
    requires one_each { length times.now ≡ length costs.now }
    ensures { IfOk result (λ known. MatchOption known (known_parts (spendings_by times.now costs.now) ≡ None)
        (λ bounds. known_parts (spendings_by times.now costs.now) ≡ Some (parts_of (bounds_of bounds.items)))) }
{
    let mut bounds = Vec::new(alloc);
    for i in 0..times.len() {
        let Some(bound) = spent(&times[i], &costs[i]) else {
            return Ok(None);
        };
        bounds.push(bound.copied(alloc)?)?;
    }
    Ok(Some(bounds))
}

// What a rule spends at most, where it is known.
fn spent<'e>(time: &'e TimeEntry, cost: &'e Option<CostEntry>) -> Option<&'e Bound>
    ensures { MatchOption result (spent_by time.now cost.now ≡ None) (λ b. spent_by time.now cost.now ≡ Some (bound_of b.now)) }
{
    match cost {
        None => time_bound(time),
        Some(CostEntry::Known(stored)) => Some(&stored.bound),
        Some(CostEntry::UnboundedSide(_)) => None,
        Some(CostEntry::OutOfLimits(_)) => None,
        Some(CostEntry::Missing(_)) => None,
        Some(CostEntry::Untimed { .. }) => None,
        Some(CostEntry::Large { .. }) => None,
    }
}

// The bound of a time, where it is known.
fn time_bound(entry: &TimeEntry) -> Option<&Bound>
    ensures { MatchOption result (time_in entry.now ≡ None) (λ b. time_in entry.now ≡ Some (bound_of b.now)) }
{
    match entry {
        TimeEntry::Known(stored) => Some(&stored.bound),
        TimeEntry::Gap { .. } => None,
        TimeEntry::OutOfLimits(_) => None,
        TimeEntry::Large { .. } => None,
    }
}
