//! The whole report.

ghost use Rattle.std.specs.Prelude.{◌≡◌, ◌++◌, length, map, IfOk, OnOk};
ghost use Rattle.std.specs.List.{All};
ghost use Rattle.its_model.specs.Views.{name_of, symbol_of, program_of};
ghost use Rattle.outcome.specs.Views.{time_of, size_of, report_of};
ghost use Rattle.report_text.specs.Pieces.{numbered_lines};
ghost use Rattle.report_text.specs.Reports.{headline, cost_line, size_line, why_time, why_cost, why_size};
ghost use Rattle.report_text.specs.Reports.{bounds_text, reasons_text, text_of_report};
ghost use Rattle.outcome.specs.Printing.{IsPrintableTime, IsPrintableCost, IsPrintableSize, IsPrintableOutcome, HasItsGap};
ghost use Rattle.report_text.specs.Conditions.{entry_line, rule_cost_of};

use crate::bounds::{push_cost, push_size, push_time, push_total};
use crate::reasons::{push_why_cost, push_why_size, push_why_time};
use cert_types::Gap;
use its_model::{Name, Program, Symbol};
use model::Memory;
use outcome::{CostEntry, Outcome, SizeEntry, TimeEntry};
use std::alloc::Global;

/// The text of the report of an outcome on a program.
///
/// # Errors
///
/// `Memory` where an allocation fails.
pub fn print(alloc: Global, p: &Program, o: &Outcome) -> Result<Vec<u8>, Memory>
    requires { IsPrintableOutcome (length p.now.start_names.items) o.now }
    ensures { IfOk result (λ text. text.items ≡ text_of_report (program_of p.now) (report_of o.now)) }
{
    let mut text = Vec::new(alloc);
    push_bounds(&mut text, &p.start_names, o)?;
    push_reasons(&mut text, &p.symbols, o)?;
    Ok(text)
}

// The headline and the lines of the bounds.
fn push_bounds(text: &mut Vec<u8>, names: &[Name], o: &Outcome) -> Result<(), Memory>
    requires { IsPrintableOutcome (length names.now) o.now }
    ensures { OnOk result (text.new.items ≡ text.old.items ++ bounds_text (map name_of names.now) (report_of o.now)) }
{
    push_headline(text, o)?;
    push_times(text, names, &o.times)?;
    push_costs(text, names, &o.costs)?;
    push_total(text, names, &o.total)?;
    push_sizes(text, names, &o.sizes)
}

// Why bounds are missing.
fn push_reasons(text: &mut Vec<u8>, symbols: &[Symbol], o: &Outcome) -> Result<(), Memory>
    requires { All (HasItsGap (length o.now.gaps.items)) o.now.times.items }
    ensures { OnOk result
        (text.new.items ≡ text.old.items ++ reasons_text (map symbol_of symbols.now) (report_of o.now)) }
{
    push_why_times(text, symbols, &o.gaps, &o.times)?;
    push_why_costs(text, &o.costs)?;
    push_why_sizes(text, &o.sizes)
}

// Whether every rule has a time, and every rule with a cost a bound on it.
fn push_headline(text: &mut Vec<u8>, o: &Outcome) -> Result<(), Memory>
    ensures { OnOk result (text.new.items ≡ text.old.items ++ headline (report_of o.now)) }
{
    if o.is_bounded() {
        text.extend_from_slice(b"bounded\n")
    } else {
        text.extend_from_slice(b"unknown\n")
    }
}

// The lines of the rules.
fn push_times(text: &mut Vec<u8>, names: &[Name], times: &[TimeEntry]) -> Result<(), Memory>
    requires { All (IsPrintableTime (length names.now)) times.now }
    ensures { OnOk result
        (text.new.items ≡ text.old.items ++ numbered_lines (entry_line (map name_of names.now)) 1 times.now) }
{
    for (i, entry) in times.iter().enumerate() {
        push_time(text, names, i as u64 + 1, entry)?;
    }
    Ok(())
}

// The lines of what the rules cost.
fn push_costs(text: &mut Vec<u8>, names: &[Name], costs: &[Option<CostEntry>]) -> Result<(), Memory>
    requires { All (IsPrintableCost (length names.now)) costs.now }
    ensures { OnOk result (text.new.items ≡ text.old.items
        ++ numbered_lines (λ rule c. cost_line (map name_of names.now) rule (rule_cost_of c)) 1 costs.now) }
{
    for (i, entry) in costs.iter().enumerate() {
        push_cost(text, names, i as u64 + 1, entry)?;
    }
    Ok(())
}

// The lines of the places of all rules.
fn push_sizes(text: &mut Vec<u8>, names: &[Name], sizes: &[Vec<SizeEntry>]) -> Result<(), Memory>
    requires { All (λ places. All (IsPrintableSize (length names.now)) places.items) sizes.now }
    ensures { OnOk result (text.new.items ≡ text.old.items ++ numbered_lines
        (λ rule places. numbered_lines (λ place s. size_line (map name_of names.now) rule place (size_of s)) 1 places.items)
        1 sizes.now) }
{
    for (i, places) in sizes.iter().enumerate() {
        push_places(text, names, i as u64 + 1, places)?;
    }
    Ok(())
}

// The lines of the places of a rule.
fn push_places(
    text: &mut Vec<u8>,
    names: &[Name],
    rule: u64,
    places: &[SizeEntry],
) -> Result<(), Memory>
    requires { All (IsPrintableSize (length names.now)) places.now }
    ensures { OnOk result (text.new.items ≡ text.old.items
        ++ numbered_lines (λ place s. size_line (map name_of names.now) rule place (size_of s)) 1 places.now) }
{
    for (i, entry) in places.iter().enumerate() {
        push_size(text, names, rule, i as u64 + 1, entry)?;
    }
    Ok(())
}

// Why times are missing.
fn push_why_times(
    text: &mut Vec<u8>,
    symbols: &[Symbol],
    gaps: &[Gap],
    times: &[TimeEntry],
) -> Result<(), Memory>
    requires { All (HasItsGap (length gaps.now)) times.now }
    ensures { OnOk result (text.new.items ≡ text.old.items
        ++ numbered_lines (λ rule t. why_time (map symbol_of symbols.now) rule (time_of gaps.now t)) 1 times.now) }
{
    for (i, entry) in times.iter().enumerate() {
        push_why_time(text, symbols, gaps, i as u64 + 1, entry)?;
    }
    Ok(())
}

// Why bounds on costs are missing.
fn push_why_costs(text: &mut Vec<u8>, costs: &[Option<CostEntry>]) -> Result<(), Memory>
    ensures { OnOk result
        (text.new.items ≡ text.old.items ++ numbered_lines (λ rule c. why_cost rule (rule_cost_of c)) 1 costs.now) }
{
    for (i, entry) in costs.iter().enumerate() {
        push_why_cost(text, i as u64 + 1, entry)?;
    }
    Ok(())
}

// Why sizes are missing.
fn push_why_sizes(text: &mut Vec<u8>, sizes: &[Vec<SizeEntry>]) -> Result<(), Memory>
    ensures { OnOk result (text.new.items ≡ text.old.items ++ numbered_lines
        (λ rule places. numbered_lines (λ place s. why_size rule place (size_of s)) 1 places.items) 1 sizes.now) }
{
    for (i, places) in sizes.iter().enumerate() {
        push_why_places(text, i as u64 + 1, places)?;
    }
    Ok(())
}

// Why sizes of a rule's places are missing.
fn push_why_places(text: &mut Vec<u8>, rule: u64, places: &[SizeEntry]) -> Result<(), Memory>
    ensures { OnOk result
        (text.new.items ≡ text.old.items ++ numbered_lines (λ place s. why_size rule place (size_of s)) 1 places.now) }
{
    for (i, entry) in places.iter().enumerate() {
        push_why_size(text, rule, i as u64 + 1, entry)?;
    }
    Ok(())
}
