//! Why bounds are missing.

ghost use Rattle.std.specs.Prelude.{◌≡◌, ◌++◌, codes, decimal, length, map, Some, OnOk};
ghost use Rattle.its_model.specs.Views.{symbol_of};
ghost use Rattle.cert_types.specs.Views.{result_variable_of};
ghost use Rattle.outcome.specs.Views.{time_of, cost_of, size_of, side_by, unbounded_of};
ghost use Rattle.report_text.specs.Pieces.{place_text, result_variable_text};
ghost use Rattle.report_text.specs.Reasons.{limit_hit_text, large_text, side_text, no_size_text};
ghost use Rattle.report_text.specs.Reports.{why_time, why_cost, why_size};
ghost use Rattle.report_text.specs.Conditions.{rule_cost_of};
ghost use Rattle.outcome.specs.Printing.{HasItsGap};

use crate::gaps::push_gap;
use crate::limits::{push_large, push_limit_hit};
use crate::numbers::{push_number, push_parts, push_place, push_point};
use cert_types::{Gap, LimitHit, ResultVariable};
use its_model::Symbol;
use model::Memory;
use outcome::{CostEntry, SizeEntry, TimeEntry, UnboundedSide};

/// Appends why the time of a rule is missing, if it is: a gap by its number among the gaps.
///
/// # Errors
///
/// `Memory` where an allocation fails.
pub fn push_why_time(
    text: &mut Vec<u8>,
    symbols: &[Symbol],
    gaps: &[Gap],
    rule: u64,
    entry: &TimeEntry,
) -> Result<(), Memory>
    requires { HasItsGap (length gaps.now) entry.now }
    ensures { OnOk result (text.new.items ≡ text.old.items
        ++ why_time (map symbol_of symbols.now) rule (time_of gaps.now entry.now)) }
{
    match entry {
        TimeEntry::Known(_) => Ok(()),
        TimeEntry::Gap { gap } => {
            push_time_start(text, rule)?;
            push_gap(text, symbols, &gaps[(*gap - 1) as usize])
        }
        TimeEntry::OutOfLimits(limit_hit) => {
            push_time_start(text, rule)?;
            push_limit_hit_line(text, limit_hit)
        }
        TimeEntry::Large { nodes } => {
            push_time_start(text, rule)?;
            push_large_line(text, *nodes)
        }
    }
}

// Writes the text before the reason of a rule.
fn push_time_start(text: &mut Vec<u8>, rule: u64) -> Result<(), Memory>
    ensures { OnOk result (text.new.items ≡ text.old.items ++ (codes "why time " ++ (decimal rule ++ codes ": "))) }
{
    text.extend_from_slice(b"why time ")?;
    push_number(text, rule)?;
    text.extend_from_slice(b": ")
}

/// Appends why the bound on a rule's cost is missing, if it has a cost and no bound on it.
///
/// # Errors
///
/// `Memory` where an allocation fails.
pub fn push_why_cost(text: &mut Vec<u8>, rule: u64, entry: &Option<CostEntry>) -> Result<(), Memory>
    ensures { OnOk result (text.new.items ≡ text.old.items ++ why_cost rule (rule_cost_of entry.now)) }
{
    match entry {
        Some(entry) => push_cost_reason(text, rule, entry),
        None => Ok(()),
    }
}

// Why a cost has no bound, if it has none.
fn push_cost_reason(text: &mut Vec<u8>, rule: u64, entry: &CostEntry) -> Result<(), Memory>
    ensures { OnOk result (text.new.items ≡ text.old.items ++ why_cost rule (Some (cost_of entry.now))) }
{
    match entry {
        CostEntry::Known(_) => Ok(()),
        CostEntry::UnboundedSide(unbounded) => {
            push_cost_start(text, rule)?;
            push_unbounded(text, unbounded)
        }
        CostEntry::OutOfLimits(limit_hit) => {
            push_cost_start(text, rule)?;
            push_limit_hit_line(text, limit_hit)
        }
        CostEntry::Missing(result_variable) => {
            push_cost_start(text, rule)?;
            push_result_variable_line(text, b"missing ", *result_variable)
        }
        CostEntry::Untimed { rule: untimed } => {
            push_cost_start(text, rule)?;
            push_untimed(text, *untimed)
        }
        CostEntry::Large { nodes } => {
            push_cost_start(text, rule)?;
            push_large_line(text, *nodes)
        }
    }
}

// Writes the text before the reason of a cost.
fn push_cost_start(text: &mut Vec<u8>, rule: u64) -> Result<(), Memory>
    ensures { OnOk result (text.new.items ≡ text.old.items ++ (codes "why cost " ++ (decimal rule ++ codes ": "))) }
{
    text.extend_from_slice(b"why cost ")?;
    push_number(text, rule)?;
    text.extend_from_slice(b": ")
}

/// Why the size of a place is missing, if it is.
pub(crate) fn push_why_size(
    text: &mut Vec<u8>,
    rule: u64,
    place: u64,
    entry: &SizeEntry,
) -> Result<(), Memory>
    ensures { OnOk result (text.new.items ≡ text.old.items ++ why_size rule place (size_of entry.now)) }
{
    match entry {
        SizeEntry::Known(_) => Ok(()),
        SizeEntry::UnboundedSide(unbounded) => {
            push_size_start(text, rule, place)?;
            push_unbounded(text, unbounded)
        }
        SizeEntry::OutOfLimits(limit_hit) => {
            push_size_start(text, rule, place)?;
            push_limit_hit_line(text, limit_hit)
        }
        SizeEntry::Missing(result_variable) => {
            push_size_start(text, rule, place)?;
            push_result_variable_line(text, b"missing ", *result_variable)
        }
        SizeEntry::Nonlinear(result_variable) => {
            push_size_start(text, rule, place)?;
            push_result_variable_line(text, b"bent ", *result_variable)
        }
        SizeEntry::Untimed { rule: untimed } => {
            push_size_start(text, rule, place)?;
            push_untimed(text, *untimed)
        }
        SizeEntry::Large { nodes } => {
            push_size_start(text, rule, place)?;
            push_large_line(text, *nodes)
        }
    }
}

// Writes the text before the reason of a place.
fn push_size_start(text: &mut Vec<u8>, rule: u64, place: u64) -> Result<(), Memory>
    ensures { OnOk result
        (text.new.items ≡ text.old.items ++ (codes "why size " ++ (place_text rule place ++ codes ": "))) }
{
    text.extend_from_slice(b"why size ")?;
    push_place(text, rule, place)?;
    text.extend_from_slice(b": ")
}

// An unbounded side, its ray, and the point from which it starts.
fn push_unbounded(text: &mut Vec<u8>, unbounded: &UnboundedSide) -> Result<(), Memory>
    ensures { OnOk result (text.new.items ≡ text.old.items ++ no_size_text (unbounded_of unbounded.now)) }
{
    push_side(text, unbounded.up)?;
    text.extend_from_slice(b"  ray: ")?;
    push_parts(text, &unbounded.ray)?;
    text.extend_from_slice(b"\n  kept: ")?;
    push_point(text, &unbounded.kept)?;
    text.extend_from_slice(b"\n")
}

// Which side is unbounded.
fn push_side(text: &mut Vec<u8>, up: bool) -> Result<(), Memory>
    ensures { OnOk result (text.new.items ≡ text.old.items ++ side_text (side_by up)) }
{
    if up {
        text.extend_from_slice(b"loose up\n")
    } else {
        text.extend_from_slice(b"loose low\n")
    }
}

// A linear program that exceeded a limit.
fn push_limit_hit_line(text: &mut Vec<u8>, limit_hit: &LimitHit) -> Result<(), Memory>
    ensures { OnOk result (text.new.items ≡ text.old.items ++ (limit_hit_text limit_hit.now ++ codes "\n")) }
{
    push_limit_hit(text, limit_hit)?;
    text.extend_from_slice(b"\n")
}

// A bound that is too large.
fn push_large_line(text: &mut Vec<u8>, nodes: u64) -> Result<(), Memory>
    ensures { OnOk result (text.new.items ≡ text.old.items ++ (large_text nodes ++ codes "\n")) }
{
    push_large(text, nodes)?;
    text.extend_from_slice(b"\n")
}

// A rule and a place after a word.
fn push_result_variable_line(
    text: &mut Vec<u8>,
    word: &[u8],
    result_variable: ResultVariable,
) -> Result<(), Memory>
    ensures { OnOk result (text.new.items ≡ text.old.items ++ (word.now ++ (result_variable_text (result_variable_of result_variable) ++ codes "\n"))) }
{
    text.extend_from_slice(word)?;
    push_place(
        text,
        u64::from(result_variable.rule),
        u64::from(result_variable.place),
    )?;
    text.extend_from_slice(b"\n")
}

// A rule whose time is missing.
fn push_untimed(text: &mut Vec<u8>, rule: u32) -> Result<(), Memory>
    ensures { OnOk result (text.new.items ≡ text.old.items ++ (codes "untimed " ++ (decimal rule ++ codes "\n"))) }
{
    text.extend_from_slice(b"untimed ")?;
    push_number(text, u64::from(rule))?;
    text.extend_from_slice(b"\n")
}
