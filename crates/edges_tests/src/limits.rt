//! Programs up to the limits on rules and places, and beyond them.

use crate::calls::{CallEnd, ample_sink, call_end};
use crate::words::{first_and_rest, number, words_of};
use koat_cli::Status;
use model::Memory;
use outside_io::{MemoryFile, MemoryShelf};
use std::alloc::Global;

/// The result of the analysis of a program with this many rules and places: the expected report, a refusal, or another
/// answer. The program is a `chain`, in which each rule leads from a symbol to the next, or a `star`, in which each
/// rule leads from the start symbol to a symbol of its own.
pub(crate) fn limit_report(alloc: Global, text: &str) -> Result<String, Memory> {
    let (shape, numbers) = first_and_rest(text);
    let (rules, places) = first_and_rest(numbers);
    let (rules, places) = (number(rules), number(places));
    let mut files = Vec::new(alloc);
    files.push(MemoryFile {
        name: String::from_str(alloc, "p")?,
        bytes: Vec::from_slice(alloc, program(alloc, shape, rules, places)?.as_bytes())?,
    })?;
    let mut shelf = MemoryShelf::new(files, Vec::new(alloc));
    let mut sink = ample_sink(alloc, Vec::new(alloc))?;
    let end = call_end(alloc, &words_of(alloc, "analyse p")?, &mut shelf, &mut sink)?;
    let expected = report(alloc, rules, places)?;
    String::from_str(alloc, kind_of(&end, expected.as_bytes()))
}

// Whether a call ended with the expected report, or with a refusal of the program at a byte.
fn kind_of(end: &CallEnd, expected: &[u8]) -> &'static str {
    if end.status == Status::Done && end.text.as_slice() == expected {
        "the expected report"
    } else if end.status == Status::ProgramRefused && end.text.starts_with(b"program refused at ") {
        "a refusal"
    } else {
        "another answer"
    }
}

// The text of the program of this shape with this many rules, whose symbols have this many places.
fn program(alloc: Global, shape: &str, rules: u64, places: u64) -> Result<String, Memory> {
    let mut text = String::from_str(alloc, "(STARTTERM (FUNCTIONSYMBOLS l0))(RULES")?;
    let arguments = arguments(alloc, places)?;
    for rule in 0..rules {
        let source = if shape == "chain" { rule } else { 0 };
        let next = rule.saturating_add(1);
        text.push_str(&format!(in alloc; " l{source}{arguments} -> Com_1(l{next}{arguments})")?)?;
    }
    text.push_str(")")?;
    Ok(text)
}

// This many arguments in brackets: `(A0,A1,A2)`.
fn arguments(alloc: Global, places: u64) -> Result<String, Memory> {
    let mut text = String::from_str(alloc, "(")?;
    for place in 0..places {
        let comma = if place == 0 { "" } else { "," };
        text.push_str(&format!(in alloc; "{comma}A{place}")?)?;
    }
    text.push_str(")")?;
    Ok(text)
}

// The report on this many rules, each of which occurs at most once and keeps its arguments, of which there are this
// many.
fn report(alloc: Global, rules: u64, places: u64) -> Result<String, Memory> {
    let mut text = String::from_str(alloc, "bounded\n")?;
    for rule in 1..=rules {
        text.push_str(&format!(in alloc; "time {rule}: 1\n")?)?;
    }
    text.push_str(&format!(in alloc; "total: {rules}\n")?)?;
    for rule in 1..=rules {
        for argument in 0..places {
            let place = argument.saturating_add(1);
            text.push_str(&format!(in alloc; "size {rule}.{place}: A{argument}\n")?)?;
        }
    }
    Ok(text)
}
