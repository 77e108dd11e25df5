//! The figures of an outcome as text.

ghost use Rattle.std.specs.Prelude.{◌≡◌, ◌++◌, length, count_by, sum_by, decimal, IfOk, OnOk};
ghost use Rattle.its_model.specs.Views.{program_of};
ghost use Rattle.outcome.specs.Views.{report_of};
ghost use Rattle.outcome.specs.Entries.{is_known};
ghost use Rattle.outcome.specs.Printing.{IsPrintableOutcome};
ghost use Rattle.report_text.specs.Reports.{total_line};
ghost use Rattle.koat_cli.specs.Figures.{rules_line, times_line, sizes_line, lemmas_line, part_end, text_of_figures};
ghost use Rattle.koat_cli.specs.Steps.{is_known_size};

use bound_text::write;
use itoa::Buffer;
use its_model::Program;
use model::Memory;
use outcome::{Outcome, SizeEntry, TimeEntry};
use std::alloc::Global;

/// The figures of an outcome on a program: how many rules there are, how many of them have a time, how many of all
/// places have a size, the total, and how many lemmas state the bounds.
pub(crate) fn figures(alloc: Global, p: &Program, o: &Outcome) -> Result<Vec<u8>, Memory>
    requires { IsPrintableOutcome (length p.now.start_names.items) o.now }
    ensures { IfOk result (λ text.
        text.items ≡ text_of_figures (program_of p.now) (report_of o.now) (length o.now.lemmas.items)) }
{
    let mut text = Vec::new(alloc);
    push_rules(&mut text, p)?;
    push_times(&mut text, o)?;
    push_sizes(&mut text, o)?;
    push_total(&mut text, p, o)?;
    push_lemmas(&mut text, o)?;
    Ok(text)
}

// How many rules there are.
fn push_rules(text: &mut Vec<u8>, p: &Program) -> Result<(), Memory>
    ensures { OnOk result (text.new.items ≡ text.old.items ++ rules_line (program_of p.now)) }
{
    text.extend_from_slice(b"rules ")?;
    text.extend_from_slice(Buffer::new().format(p.rules.len()).as_bytes())?;
    text.extend_from_slice(b"\n")
}

// How many rules have a time.
fn push_times(text: &mut Vec<u8>, o: &Outcome) -> Result<(), Memory>
    ensures { OnOk result (text.new.items ≡ text.old.items ++ times_line (report_of o.now)) }
{
    text.extend_from_slice(b"times ")?;
    push_part(text, known_times(&o.times) as u128, o.times.len() as u128)
}

// How many places have a size.
fn push_sizes(text: &mut Vec<u8>, o: &Outcome) -> Result<(), Memory>
    ensures { OnOk result (text.new.items ≡ text.old.items ++ sizes_line (report_of o.now)) }
{
    text.extend_from_slice(b"sizes ")?;
    push_part(text, known_sizes(&o.sizes), all_sizes(&o.sizes))
}

// The total.
fn push_total(text: &mut Vec<u8>, p: &Program, o: &Outcome) -> Result<(), Memory>
    requires { IsPrintableOutcome (length p.now.start_names.items) o.now }
    ensures { OnOk result (text.new.items
        ≡ text.old.items ++ total_line (program_of p.now).start_names (report_of o.now).total) }
{
    text.extend_from_slice(b"total: ")?;
    match &o.total {
        Some(bound) => write(&p.start_names, text, bound)?,
        None => text.extend_from_slice(b"unknown")?,
    }
    text.extend_from_slice(b"\n")
}

// How many lemmas there are.
fn push_lemmas(text: &mut Vec<u8>, o: &Outcome) -> Result<(), Memory>
    ensures { OnOk result (text.new.items ≡ text.old.items ++ lemmas_line (length o.now.lemmas.items)) }
{
    text.extend_from_slice(b"lemmas ")?;
    text.extend_from_slice(Buffer::new().format(o.lemmas.len()).as_bytes())?;
    text.extend_from_slice(b"\n")
}

// A part of a whole, as in `2 of 3`, and the end of the line.
fn push_part(text: &mut Vec<u8>, part: u128, whole: u128) -> Result<(), Memory>
    ensures { OnOk result (text.new.items ≡ text.old.items ++ part_end part whole) }
{
    text.extend_from_slice(Buffer::new().format(part).as_bytes())?;
    text.extend_from_slice(b" of ")?;
    text.extend_from_slice(Buffer::new().format(whole).as_bytes())?;
    text.extend_from_slice(b"\n")
}

// How many of the entries are times.
fn known_times(times: &[TimeEntry]) -> usize
    ensures { result ≡ count_by is_known times.now }
{
    times
        .iter()
        .filter(|entry| matches!(entry, TimeEntry::Known(_)))
        .count()
}

// How many of the places after a rule have a size.
fn known_places(places: &[SizeEntry]) -> usize
    ensures { result ≡ count_by is_known_size places.now }
{
    places
        .iter()
        .filter(|entry| matches!(entry, SizeEntry::Known(_)))
        .count()
}

// How many of all places have a size.
fn known_sizes(sizes: &[Vec<SizeEntry>]) -> u128
    ensures { result ≡ sum_by (λ row. count_by is_known_size row.items) sizes.now }
{
    sizes.iter().map(|row| known_places(row) as u128).sum()
}

// How many places there are.
fn all_sizes(sizes: &[Vec<SizeEntry>]) -> u128
    ensures { result ≡ sum_by (λ row. length row.items) sizes.now }
{
    sizes.iter().map(|row| row.len() as u128).sum()
}
