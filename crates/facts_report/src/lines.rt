//! Prints facts: for each two places the line of the strongest one.

ghost use Rattle.std.specs.Prelude.{◌≡◌, ◌++◌, length, map, decimal, IfOk, OnOk};
ghost use Rattle.its_model.specs.Views.{name_of, symbol_of, program_of};
ghost use Rattle.outcome.specs.Printing.{IsPrintableOutcome};
ghost use Rattle.outcome.specs.Views.{report_of};
ghost use Rattle.report_text.specs.Pieces.{numbered_lines};
ghost use Rattle.facts_report.specs.FactTexts.{value_text, difference_text, fact_head, fact_end, location_line};
ghost use Rattle.facts_report.specs.FactTexts.{line_of_strongest};
ghost use Rattle.facts_report.specs.FactTexts.{lines_with_plus};
ghost use Rattle.facts_report.specs.FactTexts.{lines_of_facts, symbol_lines, location_lines, text_with_facts};

use crate::analysis::WithFacts;
use itoa::Buffer;
use its_model::{Name, Program, Symbol};
use location_facts::{LocFact, facts_at, greatest_least};
use model::Memory;
use std::alloc::{AllocError, Global};

/// The text of the analysis of a program with facts: a line for each two places of a symbol with kept facts, which
/// gives the strongest one, in order, and then the report.
///
/// # Errors
///
/// `Memory` where an allocation fails, and where the number of a symbol has more than 32 bits.
pub fn print(alloc: Global, p: &Program, w: &WithFacts) -> Result<Vec<u8>, Memory>
    requires { IsPrintableOutcome (length p.now.start_names.items) w.now.outcome }
    ensures { IfOk result (λ text. text.items
        ≡ text_with_facts (program_of p.now) w.now.kept.items (report_of w.now.outcome)) }
{
    let mut text = location_lines(alloc, p, &w.kept)?;
    let report = report_text::print(alloc, p, &w.outcome)?;
    text.extend_from_slice(&report)?;
    Ok(text)
}

/// The lines of the facts at all symbols of a program, in order.
///
/// # Errors
///
/// `Memory` where an allocation fails, and where the number of a symbol has more than 32 bits.
pub fn location_lines(alloc: Global, p: &Program, kept: &[LocFact]) -> Result<Vec<u8>, Memory>
    ensures { IfOk result (λ text. text.items ≡ location_lines (program_of p.now) kept.now) }
{
    let mut text = Vec::new(alloc);
    push_lines(alloc, &mut text, &p.symbols, kept)?;
    Ok(text)
}

// Appends the lines of the facts at symbols.
fn push_lines(
    alloc: Global,
    text: &mut Vec<u8>,
    symbols: &[Symbol],
    kept: &[LocFact],
) -> Result<(), Memory>
    ensures { OnOk result (text.new.items
        ≡ text.old.items ++ numbered_lines (λ s symbol. symbol_lines kept.now s (symbol_of symbol)) 0 symbols.now) }
{
    for (s, symbol) in symbols.iter().enumerate() {
        push_symbol(alloc, text, s, symbol, kept)?;
    }
    Ok(())
}

// Appends the lines of the facts at the symbol with this number.
fn push_symbol(
    alloc: Global,
    text: &mut Vec<u8>,
    number: usize,
    symbol: &Symbol,
    kept: &[LocFact],
) -> Result<(), Memory>
    ensures { OnOk result (text.new.items
        ≡ text.old.items ++ symbol_lines kept.now number (symbol_of symbol.now)) }
{
    let facts = facts_at(alloc, to_u32(number)?, kept)?;
    push_facts(text, &symbol.name, &facts)
}

// A number of a symbol as one of 32 bits.
fn to_u32(number: usize) -> Result<u32, Memory>
    ensures { IfOk result (λ n. n ≡ number) }
{
    u32::try_from(number).map_err(|_| AllocError)
}

// Appends the lines of the facts of a symbol with this name.
fn push_facts(text: &mut Vec<u8>, name: &Name, facts: &[LocFact]) -> Result<(), Memory>
    ensures { OnOk result (text.new.items ≡ text.old.items ++ lines_of_facts (name_of name.now) facts.now) }
{
    for plus in 0..9 {
        push_lines_with_plus(text, name, facts, plus)?;
    }
    Ok(())
}

// Appends the lines of the facts whose difference begins with this place.
fn push_lines_with_plus(
    text: &mut Vec<u8>,
    name: &Name,
    facts: &[LocFact],
    plus: u32,
) -> Result<(), Memory>
    ensures { OnOk result (text.new.items
        ≡ text.old.items ++ lines_with_plus (name_of name.now) facts.now plus) }
{
    for minus in 0..9 {
        push_strongest_line(text, name, plus, minus, greatest_least(facts, plus, minus))?;
    }
    Ok(())
}

// Appends the line of two places with the greatest lower bound on their difference, if there is one.
fn push_strongest_line(
    text: &mut Vec<u8>,
    name: &Name,
    plus: u32,
    minus: u32,
    found: Option<i64>,
) -> Result<(), Memory>
    ensures { OnOk result (text.new.items ≡ text.old.items ++ line_of_strongest (name_of name.now) plus minus found) }
{
    match found {
        None => Ok(()),
        Some(least) => push_fact(text, name, plus, minus, least),
    }
}

// Appends the line of a fact of a symbol with this name.
fn push_fact(
    text: &mut Vec<u8>,
    name: &Name,
    plus: u32,
    minus: u32,
    least: i64,
) -> Result<(), Memory>
    ensures { OnOk result (text.new.items ≡ text.old.items ++ location_line (name_of name.now) plus minus least) }
{
    push_head(text, name)?;
    push_difference(text, plus, minus)?;
    push_end(text, least)
}

// Appends the text before the difference.
fn push_head(text: &mut Vec<u8>, name: &Name) -> Result<(), Memory>
    ensures { OnOk result (text.new.items ≡ text.old.items ++ fact_head (name_of name.now)) }
{
    text.extend_from_slice(b"fact ")?;
    text.extend_from_slice(&name.bytes)?;
    text.extend_from_slice(b": ")
}

// Appends the text after the difference.
fn push_end(text: &mut Vec<u8>, least: i64) -> Result<(), Memory>
    ensures { OnOk result (text.new.items ≡ text.old.items ++ fact_end least) }
{
    text.extend_from_slice(b" >= ")?;
    text.extend_from_slice(Buffer::new().format(least).as_bytes())?;
    text.extend_from_slice(b"\n")
}

// Appends the value at a place, less that at another.
#[tactic(auto, using(crate::proofs::Places::plus_alone, crate::proofs::Places::both_places))]
fn push_difference(text: &mut Vec<u8>, plus: u32, minus: u32) -> Result<(), Memory>
    ensures { OnOk result (text.new.items ≡ text.old.items ++ difference_text plus minus) }
{
    if plus == 0 {
        return push_opposite(text, minus);
    }
    push_place(text, plus)?;
    if minus == 0 {
        return Ok(());
    }
    text.extend_from_slice(b" - ")?;
    push_place(text, minus)
}

// Appends the opposite of the value at a place.
#[tactic(auto, using(crate::proofs::Places::no_places, crate::proofs::Places::minus_alone))]
fn push_opposite(text: &mut Vec<u8>, minus: u32) -> Result<(), Memory>
    ensures { OnOk result (text.new.items ≡ text.old.items ++ difference_text 0 minus) }
{
    if minus == 0 {
        return text.extend_from_slice(b"0");
    }
    text.extend_from_slice(b"-")?;
    push_place(text, minus)
}

// Appends a place.
fn push_place(text: &mut Vec<u8>, place: u32) -> Result<(), Memory>
    ensures { OnOk result (text.new.items ≡ text.old.items ++ value_text place) }
{
    text.extend_from_slice(b"x")?;
    text.extend_from_slice(Buffer::new().format(place).as_bytes())
}
