//! Prints a report.

ghost use Rattle.std.specs.Prelude.{◌≡◌, ◌++◌, length, map, decimal, option_map, IfOk, OnOk};
ghost use Rattle.std.specs.List.{All};
ghost use Rattle.its_model.specs.Views.{name_of, symbol_of, program_of};
ghost use Rattle.outcome.specs.Printing.{IsPrintableOutcome, HasItsGap};
ghost use Rattle.outcome.specs.Holding.{numbered_entry};
ghost use Rattle.outcome.specs.Views.{report_of};
ghost use Rattle.signed_bounds.specs.Views.{signed_of};
ghost use Rattle.best_report.specs.Lines.{line_of};
ghost use Rattle.best_report.specs.Texts.{subject_text, bound_text, line_text, lines_text, headline};
ghost use Rattle.best_report.specs.Texts.{time_reason, cost_reason, subject_reason, reason_by, reasons_text, best_text};

use crate::analysis_bounds::entry_at;
use crate::bounded::is_bounded;
use crate::line::Line;
use crate::subject::Subject;
use itoa::Buffer;
use its_model::{Name, Program, Symbol};
use model::Memory;
use outcome::Outcome;
use report_text::{push_why_cost, push_why_time};
use signed_bounds::Signed;
use signed_text::write_signed;
use std::alloc::Global;

/// The text of a report on a program, with the reasons of an analysis: the headline, a line for each subject, and why
/// each missing time and each missing bound on a cost is missing.
///
/// # Errors
///
/// `Memory` where an allocation fails.
#[tactic(auto, unfolding(crate::specs::Texts::best_text))]
pub fn print(
    alloc: Global,
    p: &Program,
    outcome: &Outcome,
    lines: &[Line],
) -> Result<Vec<u8>, Memory>
    requires { IsPrintableOutcome (length p.now.start_names.items) outcome.now }
    ensures { IfOk result (λ text. text.items ≡ best_text (program_of p.now)
        (report_of outcome.now) (map line_of lines.now)) }
{
    let mut text = Vec::new(alloc);
    push_headline(&mut text, lines)?;
    push_lines(&mut text, &p.start_names, lines)?;
    push_reasons(&mut text, &p.symbols, outcome, lines)?;
    Ok(text)
}

// The first line.
fn push_headline(text: &mut Vec<u8>, lines: &[Line]) -> Result<(), Memory>
    ensures { OnOk result (text.new.items ≡ text.old.items ++ headline (map line_of lines.now)) }
{
    if is_bounded(lines) {
        text.extend_from_slice(b"bounded\n")
    } else {
        text.extend_from_slice(b"unknown\n")
    }
}

// A line for each subject.
fn push_lines(text: &mut Vec<u8>, names: &[Name], lines: &[Line]) -> Result<(), Memory>
    ensures { OnOk result
        (text.new.items ≡ text.old.items ++ lines_text (map name_of names.now) (map line_of lines.now)) }
{
    for line in lines {
        push_line(text, names, line)?;
    }
    Ok(())
}

// The line of a subject.
fn push_line(text: &mut Vec<u8>, names: &[Name], line: &Line) -> Result<(), Memory>
    ensures { OnOk result (text.new.items ≡ text.old.items ++ line_text (map name_of names.now) (line_of line.now)) }
{
    push_subject(text, line.subject)?;
    text.extend_from_slice(b": ")?;
    push_bound(text, names, &line.bound)?;
    text.extend_from_slice(b"\n")
}

// A subject.
fn push_subject(text: &mut Vec<u8>, subject: Subject) -> Result<(), Memory>
    ensures { OnOk result (text.new.items ≡ text.old.items ++ subject_text subject) }
{
    match subject {
        Subject::Time(rule) => push_number(text, b"time ", rule),
        Subject::Cost(rule) => push_number(text, b"cost ", rule),
        Subject::Total => text.extend_from_slice(b"total"),
        Subject::Above(rule, place) => {
            push_number(text, b"above ", rule)?;
            push_number(text, b".", place)
        }
        Subject::Below(rule, place) => {
            push_number(text, b"below ", rule)?;
            push_number(text, b".", place)
        }
    }
}

// A word and a number.
fn push_number(text: &mut Vec<u8>, word: &[u8], n: u64) -> Result<(), Memory>
    ensures { OnOk result (text.new.items ≡ text.old.items ++ (word.now ++ decimal n)) }
{
    text.extend_from_slice(word)?;
    text.extend_from_slice(Buffer::new().format(n).as_bytes())
}

// A bound, or that there is none.
fn push_bound(text: &mut Vec<u8>, names: &[Name], bound: &Option<Signed>) -> Result<(), Memory>
    ensures { OnOk result (text.new.items
        ≡ text.old.items ++ bound_text (map name_of names.now) (option_map signed_of bound.now)) }
{
    match bound {
        None => text.extend_from_slice(b"unknown"),
        Some(bound) => write_signed(text, names, bound),
    }
}

// Why bounds are missing.
fn push_reasons(
    text: &mut Vec<u8>,
    symbols: &[Symbol],
    outcome: &Outcome,
    lines: &[Line],
) -> Result<(), Memory>
    requires { All (HasItsGap (length outcome.now.gaps.items)) outcome.now.times.items }
    ensures { OnOk result (text.new.items ≡ text.old.items
        ++ reasons_text (map symbol_of symbols.now) (report_of outcome.now) (map line_of lines.now)) }
{
    for line in lines {
        push_reason(text, symbols, outcome, line)?;
    }
    Ok(())
}

// Why the bound of a line is missing, if it is.
fn push_reason(
    text: &mut Vec<u8>,
    symbols: &[Symbol],
    outcome: &Outcome,
    line: &Line,
) -> Result<(), Memory>
    requires { All (HasItsGap (length outcome.now.gaps.items)) outcome.now.times.items }
    ensures { OnOk result (text.new.items ≡ text.old.items
        ++ reason_by (map symbol_of symbols.now) (report_of outcome.now) line.now.subject
        (option_map signed_of line.now.bound)) }
{
    if line.bound.is_some() {
        return Ok(());
    }
    match line.subject {
        Subject::Time(rule) => push_time_reason(text, symbols, outcome, rule),
        Subject::Cost(rule) => push_cost_reason(text, outcome, rule),
        _ => Ok(()),
    }
}

// Why the time of a rule is missing, if the analysis has an entry for the rule without a time.
fn push_time_reason(
    text: &mut Vec<u8>,
    symbols: &[Symbol],
    outcome: &Outcome,
    rule: u64,
) -> Result<(), Memory>
    requires { All (HasItsGap (length outcome.now.gaps.items)) outcome.now.times.items }
    ensures { OnOk result (text.new.items ≡ text.old.items
        ++ time_reason (map symbol_of symbols.now) rule (numbered_entry (report_of outcome.now).times rule)) }
{
    match entry_at(&outcome.times, rule) {
        Some(entry) => push_why_time(text, symbols, &outcome.gaps, rule, entry),
        None => Ok(()),
    }
}

// Why the bound on the cost of a rule is missing, if the analysis has an entry for the rule with a cost and no bound.
fn push_cost_reason(text: &mut Vec<u8>, outcome: &Outcome, rule: u64) -> Result<(), Memory>
    ensures { OnOk result (text.new.items ≡ text.old.items
        ++ cost_reason rule (numbered_entry (report_of outcome.now).costs rule)) }
{
    match entry_at(&outcome.costs, rule) {
        Some(entry) => push_why_cost(text, rule, entry),
        None => Ok(()),
    }
}
