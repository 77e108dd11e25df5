//! The tally of a run beside the bounds of an outcome, as text.

ghost use Rattle.std.specs.Prelude.{◌≡◌, ◌++◌, length, IfOk, OnOk, Some};
ghost use Rattle.std.specs.List.{All};
ghost use Rattle.outcome.specs.Printing.{IsPrintableTime, IsPrintableCost, IsPrintableSize, IsPrintableTotal};
ghost use Rattle.outcome.specs.Printing.{IsPrintableOutcome};
ghost use Rattle.outcome.specs.Views.{report_of, cost_of, size_of};
ghost use Rattle.report_text.specs.Conditions.{rule_cost_of, total_of};
ghost use Rattle.report_text.specs.Pieces.{place_text};
ghost use Rattle.run_replay.specs.ReplayAnswers.{sums_of};
ghost use Rattle.koat_cli.specs.ReplayTexts.{value_text, bound_value, cost_value, size_value, steps_line, count_line};
ghost use Rattle.koat_cli.specs.ReplayTexts.{spent_line, total_beside, greatest_line, lines_beside};
ghost use Rattle.koat_cli.specs.ReplayTexts.{text_of_replay};
ghost use Rattle.koat_cli.specs.Steps.{entry_value, entry_lines, cost_lines, place_lines};

use bound_expr::{Bound, CAP};
use itoa::Buffer;
use model::Memory;
use outcome::{CostEntry, Outcome, SizeEntry, TimeEntry};
use run_replay::Tally;
use std::alloc::Global;

/// The tally of a run, beside the values of an outcome's bounds where the inputs are `at`, each up to 2^127.
pub(crate) fn replay_text(
    alloc: Global,
    at: &[u128],
    tally: &Tally,
    o: &Outcome,
) -> Result<Vec<u8>, Memory>
    requires { IsPrintableOutcome (length at.now) o.now }
    ensures { IfOk result (λ text. text.items ≡ text_of_replay at.now (sums_of tally.now) (report_of o.now)) }
{
    let mut text = Vec::new(alloc);
    push_steps(&mut text, tally.steps)?;
    push_counts(&mut text, at, &tally.counts, &o.times)?;
    push_costs(&mut text, at, &tally.costs, &o.costs)?;
    push_total(&mut text, at, tally.spent, &o.total)?;
    push_greatest(&mut text, at, &tally.greatest, &o.sizes)?;
    Ok(text)
}

// How many steps the run has.
fn push_steps(text: &mut Vec<u8>, steps: u64) -> Result<(), Memory>
    ensures { OnOk result (text.new.items ≡ text.old.items ++ steps_line steps) }
{
    text.extend_from_slice(b"steps ")?;
    text.extend_from_slice(Buffer::new().format(steps).as_bytes())?;
    text.extend_from_slice(b"\n")
}

// How often the rules occur.
fn push_counts(
    text: &mut Vec<u8>,
    at: &[u128],
    counts: &[u64],
    times: &[TimeEntry],
) -> Result<(), Memory>
    requires { All (IsPrintableTime (length at.now)) times.now }
    ensures { OnOk result (text.new.items ≡ text.old.items ++ entry_lines at.now 1 counts.now times.now) }
{
    for i in 0..counts.len().min(times.len()) {
        push_count(text, at, i as u64 + 1, counts[i], &times[i])?;
    }
    Ok(())
}

// How often a rule occurs.
fn push_count(
    text: &mut Vec<u8>,
    at: &[u128],
    rule: u64,
    count: u64,
    time: &TimeEntry,
) -> Result<(), Memory>
    requires { IsPrintableTime (length at.now) time.now }
    ensures { OnOk result
        (text.new.items ≡ text.old.items ++ count_line rule count (entry_value at.now time.now)) }
{
    text.extend_from_slice(b"time ")?;
    text.extend_from_slice(Buffer::new().format(rule).as_bytes())?;
    text.extend_from_slice(b": ")?;
    text.extend_from_slice(Buffer::new().format(count).as_bytes())?;
    text.extend_from_slice(b" of ")?;
    push_time_value(text, at, time)?;
    text.extend_from_slice(b"\n")
}

// The value of a time.
fn push_time_value(text: &mut Vec<u8>, at: &[u128], time: &TimeEntry) -> Result<(), Memory>
    requires { IsPrintableTime (length at.now) time.now }
    ensures { OnOk result (text.new.items ≡ text.old.items ++ entry_value at.now time.now) }
{
    match time {
        TimeEntry::Known(stored) => push_value(text, stored.bound.capped_value(at)),
        TimeEntry::Gap { .. } => text.extend_from_slice(b"unknown"),
        TimeEntry::OutOfLimits(_) => text.extend_from_slice(b"unknown"),
        TimeEntry::Large { .. } => text.extend_from_slice(b"unknown"),
    }
}

// What the steps by each rule with a cost cost together.
fn push_costs(
    text: &mut Vec<u8>,
    at: &[u128],
    spent: &[u128],
    costs: &[Option<CostEntry>],
) -> Result<(), Memory>
    requires { All (IsPrintableCost (length at.now)) costs.now }
    ensures { OnOk result (text.new.items ≡ text.old.items ++ cost_lines at.now 1 spent.now costs.now) }
{
    for i in 0..spent.len().min(costs.len()) {
        push_cost(text, at, i as u64 + 1, spent[i], &costs[i])?;
    }
    Ok(())
}

// What the steps by a rule cost together, if it has a cost.
fn push_cost(
    text: &mut Vec<u8>,
    at: &[u128],
    rule: u64,
    spent: u128,
    cost: &Option<CostEntry>,
) -> Result<(), Memory>
    requires { IsPrintableCost (length at.now) cost.now }
    ensures { OnOk result
        (text.new.items ≡ text.old.items ++ spent_line at.now rule spent (rule_cost_of cost.now)) }
{
    match cost {
        Some(cost) => push_cost_line(text, at, rule, spent, cost),
        None => Ok(()),
    }
}

// The line of a rule with a cost.
fn push_cost_line(
    text: &mut Vec<u8>,
    at: &[u128],
    rule: u64,
    spent: u128,
    cost: &CostEntry,
) -> Result<(), Memory>
    requires { IsPrintableCost (length at.now) (Some cost.now) }
    ensures { OnOk result
        (text.new.items ≡ text.old.items ++ spent_line at.now rule spent (Some (cost_of cost.now))) }
{
    text.extend_from_slice(b"cost ")?;
    text.extend_from_slice(Buffer::new().format(rule).as_bytes())?;
    text.extend_from_slice(b": ")?;
    push_value(text, spent)?;
    text.extend_from_slice(b" of ")?;
    push_cost_value(text, at, cost)?;
    text.extend_from_slice(b"\n")
}

// The value of a bound on a cost.
fn push_cost_value(text: &mut Vec<u8>, at: &[u128], cost: &CostEntry) -> Result<(), Memory>
    requires { IsPrintableCost (length at.now) (Some cost.now) }
    ensures { OnOk result (text.new.items ≡ text.old.items ++ cost_value at.now (cost_of cost.now)) }
{
    match cost {
        CostEntry::Known(stored) => push_value(text, stored.bound.capped_value(at)),
        CostEntry::UnboundedSide(_) => text.extend_from_slice(b"unknown"),
        CostEntry::OutOfLimits(_) => text.extend_from_slice(b"unknown"),
        CostEntry::Missing(_) => text.extend_from_slice(b"unknown"),
        CostEntry::Untimed { .. } => text.extend_from_slice(b"unknown"),
        CostEntry::Large { .. } => text.extend_from_slice(b"unknown"),
    }
}

// What all steps cost together, beside the total.
fn push_total(
    text: &mut Vec<u8>,
    at: &[u128],
    spent: u128,
    total: &Option<Bound>,
) -> Result<(), Memory>
    requires { IsPrintableTotal (length at.now) total.now }
    ensures { OnOk result
        (text.new.items ≡ text.old.items ++ total_beside spent (bound_value at.now (total_of total.now))) }
{
    text.extend_from_slice(b"total: ")?;
    push_value(text, spent)?;
    text.extend_from_slice(b" of ")?;
    match total {
        Some(bound) => push_value(text, bound.capped_value(at))?,
        None => text.extend_from_slice(b"unknown")?,
    }
    text.extend_from_slice(b"\n")
}

// The greatest absolute values at the places after all rules.
fn push_greatest(
    text: &mut Vec<u8>,
    at: &[u128],
    rows: &[Vec<u128>],
    sizes: &[Vec<SizeEntry>],
) -> Result<(), Memory>
    requires { All (λ places. All (IsPrintableSize (length at.now)) places.items) sizes.now }
    ensures { OnOk result (text.new.items ≡ text.old.items ++ lines_beside
        (λ rule numbers places. place_lines at.now rule 1 numbers.items places.items) 1 rows.now sizes.now) }
{
    for i in 0..rows.len().min(sizes.len()) {
        push_places(text, at, i as u64 + 1, &rows[i], &sizes[i])?;
    }
    Ok(())
}

// The greatest absolute values at the places after a rule.
fn push_places(
    text: &mut Vec<u8>,
    at: &[u128],
    rule: u64,
    numbers: &[u128],
    sizes: &[SizeEntry],
) -> Result<(), Memory>
    requires { All (IsPrintableSize (length at.now)) sizes.now }
    ensures { OnOk result (text.new.items ≡ text.old.items ++ place_lines at.now rule 1 numbers.now sizes.now) }
{
    for i in 0..numbers.len().min(sizes.len()) {
        push_place(text, at, rule, i as u64 + 1, numbers[i], &sizes[i])?;
    }
    Ok(())
}

// The greatest absolute value at a place after a rule.
fn push_place(
    text: &mut Vec<u8>,
    at: &[u128],
    rule: u64,
    place: u64,
    greatest: u128,
    size: &SizeEntry,
) -> Result<(), Memory>
    requires { IsPrintableSize (length at.now) size.now }
    ensures { OnOk result (text.new.items
        ≡ text.old.items ++ greatest_line rule place greatest (size_value at.now (size_of size.now))) }
{
    text.extend_from_slice(b"size ")?;
    push_result_variable(text, rule, place)?;
    text.extend_from_slice(b": ")?;
    text.extend_from_slice(Buffer::new().format(greatest).as_bytes())?;
    text.extend_from_slice(b" of ")?;
    push_size_value(text, at, size)?;
    text.extend_from_slice(b"\n")
}

// A rule and a place.
fn push_result_variable(text: &mut Vec<u8>, rule: u64, place: u64) -> Result<(), Memory>
    ensures { OnOk result (text.new.items ≡ text.old.items ++ place_text rule place) }
{
    text.extend_from_slice(Buffer::new().format(rule).as_bytes())?;
    text.extend_from_slice(b".")?;
    text.extend_from_slice(Buffer::new().format(place).as_bytes())
}

// The value of a size.
fn push_size_value(text: &mut Vec<u8>, at: &[u128], size: &SizeEntry) -> Result<(), Memory>
    requires { IsPrintableSize (length at.now) size.now }
    ensures { OnOk result (text.new.items ≡ text.old.items ++ size_value at.now (size_of size.now)) }
{
    match size {
        SizeEntry::Known(stored) => push_value(text, stored.bound.capped_value(at)),
        SizeEntry::UnboundedSide(_) => text.extend_from_slice(b"unknown"),
        SizeEntry::OutOfLimits(_) => text.extend_from_slice(b"unknown"),
        SizeEntry::Missing(_) => text.extend_from_slice(b"unknown"),
        SizeEntry::Nonlinear(_) => text.extend_from_slice(b"unknown"),
        SizeEntry::Untimed { .. } => text.extend_from_slice(b"unknown"),
        SizeEntry::Large { .. } => text.extend_from_slice(b"unknown"),
    }
}

/// A value up to 2^127.
pub(crate) fn push_value(text: &mut Vec<u8>, value: u128) -> Result<(), Memory>
    ensures { OnOk result (text.new.items ≡ text.old.items ++ value_text value) }
{
    if value < CAP {
        text.extend_from_slice(Buffer::new().format(value).as_bytes())
    } else {
        text.extend_from_slice(b"2^127 or more")
    }
}
