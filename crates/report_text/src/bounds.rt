//! The lines of bounds in a report.

ghost use Rattle.std.specs.Prelude.{◌≡◌, ◌++◌, length, map, Some, OnOk};
ghost use Rattle.its_model.specs.Views.{name_of};
ghost use Rattle.bound_expr.specs.Views.{bound_of};
ghost use Rattle.outcome.specs.Views.{cost_of, size_of};
ghost use Rattle.report_text.specs.Reports.{bound_end, none_end, cost_end, cost_line, total_line, size_end, size_line};
ghost use Rattle.outcome.specs.Printing.{IsPrintable, IsPrintableTime, IsPrintableCost, IsPrintableSize};
ghost use Rattle.outcome.specs.Printing.{IsPrintableTotal};
ghost use Rattle.report_text.specs.Conditions.{entry_end, entry_line, rule_cost_of, total_of};

use crate::numbers::{push_number, push_place};
use bound_expr::Bound;
use bound_text::write;
use its_model::Name;
use model::Memory;
use outcome::{CostEntry, SizeEntry, TimeEntry};

/// The line of a rule.
pub(crate) fn push_time(
    text: &mut Vec<u8>,
    names: &[Name],
    rule: u64,
    entry: &TimeEntry,
) -> Result<(), Memory>
    requires { IsPrintableTime (length names.now) entry.now }
    ensures { OnOk result (text.new.items ≡ text.old.items ++ entry_line (map name_of names.now) rule entry.now) }
{
    text.extend_from_slice(b"time ")?;
    push_number(text, rule)?;
    text.extend_from_slice(b": ")?;
    push_time_end(text, names, entry)
}

// Writes the text after the colon.
fn push_time_end(text: &mut Vec<u8>, names: &[Name], entry: &TimeEntry) -> Result<(), Memory>
    requires { IsPrintableTime (length names.now) entry.now }
    ensures { OnOk result (text.new.items ≡ text.old.items ++ entry_end (map name_of names.now) entry.now) }
{
    match entry {
        TimeEntry::Known(stored) => push_bound(text, names, &stored.bound),
        TimeEntry::Gap { .. } => text.extend_from_slice(b"unknown\n"),
        TimeEntry::OutOfLimits(_) => text.extend_from_slice(b"unknown\n"),
        TimeEntry::Large { .. } => text.extend_from_slice(b"unknown\n"),
    }
}

/// The line of what a rule costs, where it has a cost.
pub(crate) fn push_cost(
    text: &mut Vec<u8>,
    names: &[Name],
    rule: u64,
    entry: &Option<CostEntry>,
) -> Result<(), Memory>
    requires { IsPrintableCost (length names.now) entry.now }
    ensures { OnOk result
        (text.new.items ≡ text.old.items ++ cost_line (map name_of names.now) rule (rule_cost_of entry.now)) }
{
    match entry {
        Some(entry) => push_cost_line(text, names, rule, entry),
        None => Ok(()),
    }
}

// Writes the line of a cost.
fn push_cost_line(
    text: &mut Vec<u8>,
    names: &[Name],
    rule: u64,
    entry: &CostEntry,
) -> Result<(), Memory>
    requires { IsPrintableCost (length names.now) (Some entry.now) }
    ensures { OnOk result
        (text.new.items ≡ text.old.items ++ cost_line (map name_of names.now) rule (Some (cost_of entry.now))) }
{
    text.extend_from_slice(b"cost ")?;
    push_number(text, rule)?;
    text.extend_from_slice(b": ")?;
    push_cost_end(text, names, entry)
}

// Writes the text after the colon.
fn push_cost_end(text: &mut Vec<u8>, names: &[Name], entry: &CostEntry) -> Result<(), Memory>
    requires { IsPrintableCost (length names.now) (Some entry.now) }
    ensures { OnOk result (text.new.items ≡ text.old.items ++ cost_end (map name_of names.now) (cost_of entry.now)) }
{
    match entry {
        CostEntry::Known(stored) => push_bound(text, names, &stored.bound),
        CostEntry::UnboundedSide(_) => text.extend_from_slice(b"unknown\n"),
        CostEntry::OutOfLimits(_) => text.extend_from_slice(b"unknown\n"),
        CostEntry::Missing(_) => text.extend_from_slice(b"unknown\n"),
        CostEntry::Untimed { .. } => text.extend_from_slice(b"unknown\n"),
        CostEntry::Large { .. } => text.extend_from_slice(b"unknown\n"),
    }
}

/// The line of the total.
pub(crate) fn push_total(
    text: &mut Vec<u8>,
    names: &[Name],
    total: &Option<Bound>,
) -> Result<(), Memory>
    requires { IsPrintableTotal (length names.now) total.now }
    ensures { OnOk result
        (text.new.items ≡ text.old.items ++ total_line (map name_of names.now) (total_of total.now)) }
{
    text.extend_from_slice(b"total: ")?;
    match total {
        Some(bound) => push_bound(text, names, bound),
        None => text.extend_from_slice(b"unknown\n"),
    }
}

/// The line of a place.
pub(crate) fn push_size(
    text: &mut Vec<u8>,
    names: &[Name],
    rule: u64,
    place: u64,
    entry: &SizeEntry,
) -> Result<(), Memory>
    requires { IsPrintableSize (length names.now) entry.now }
    ensures { OnOk result
        (text.new.items ≡ text.old.items ++ size_line (map name_of names.now) rule place (size_of entry.now)) }
{
    text.extend_from_slice(b"size ")?;
    push_place(text, rule, place)?;
    text.extend_from_slice(b": ")?;
    push_size_end(text, names, entry)
}

// Writes the text after the colon.
fn push_size_end(text: &mut Vec<u8>, names: &[Name], entry: &SizeEntry) -> Result<(), Memory>
    requires { IsPrintableSize (length names.now) entry.now }
    ensures { OnOk result (text.new.items ≡ text.old.items ++ size_end (map name_of names.now) (size_of entry.now)) }
{
    match entry {
        SizeEntry::Known(stored) => push_bound(text, names, &stored.bound),
        SizeEntry::UnboundedSide(_) => text.extend_from_slice(b"unknown\n"),
        SizeEntry::OutOfLimits(_) => text.extend_from_slice(b"unknown\n"),
        SizeEntry::Missing(_) => text.extend_from_slice(b"unknown\n"),
        SizeEntry::Nonlinear(_) => text.extend_from_slice(b"unknown\n"),
        SizeEntry::Untimed { .. } => text.extend_from_slice(b"unknown\n"),
        SizeEntry::Large { .. } => text.extend_from_slice(b"unknown\n"),
    }
}

// The text of a bound, and the end of its line.
fn push_bound(text: &mut Vec<u8>, names: &[Name], bound: &Bound) -> Result<(), Memory>
    requires { IsPrintable (length names.now) bound.now }
    ensures { OnOk result (text.new.items ≡ text.old.items ++ bound_end (map name_of names.now) (bound_of bound.now)) }
{
    write(names, text, bound)?;
    text.extend_from_slice(b"\n")
}
