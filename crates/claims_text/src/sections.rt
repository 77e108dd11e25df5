//! The text that says why a section isn't accepted.

ghost use Rattle.std.specs.Prelude.{◌≡◌, map, option_map, IfOk};
ghost use Rattle.refined_programs.specs.Views.{annotated_copy, annotated_of};
ghost use Rattle.refinement_check.specs.Views.{fault_of};
ghost use Rattle.potential_types.specs.potential_nodes.Lookup.{numbered};
ghost use Rattle.claims_text.specs.Sections.{bad_names_text, copy_line, copy_name, end_line, fact_line, fault_text};
ghost use Rattle.claims_text.specs.Sections.{numbered_line};

use check_text::push_number;
use poly_terms::Memory;
use refined_programs::{Section, SymbolCopy};
use refinement_check::SectionFault;
use std::alloc::Global;

/// The text where the copies of a section have no names, or names that don't differ.
///
/// # Errors
///
/// `Memory` where an allocation fails.
pub fn names_text(alloc: Global) -> Result<Vec<u8>, Memory>
    ensures { IfOk result (λ text. text.items ≡ bad_names_text) }
{
    Vec::from_slice(alloc, b"no refinement: names\n")
}

/// The text of the first fault of a section: what is wrong with it as a whole, or with one of its ends.
///
/// # Errors
///
/// `Memory` where an allocation fails.
pub fn section_text(
    alloc: Global,
    section: &Section,
    fault: SectionFault,
) -> Result<Vec<u8>, Memory>
    ensures { IfOk result (λ text. text.items ≡ fault_text (annotated_of section.now) (fault_of fault)) }
{
    match fault {
        SectionFault::Start => Vec::from_slice(alloc, b"no refinement: start\n"),
        SectionFault::Facts { copy } => facts_line(alloc, &section.copies, copy),
        SectionFault::Branch { branch } => line_with_number(alloc, b"no refinement: from ", branch),
        SectionFault::Test { branch } => line_with_number(alloc, b"no refinement: if ", branch),
        SectionFault::Shape { end } => line_of_end(alloc, end, b"shape"),
        SectionFault::Rules => Vec::from_slice(alloc, b"no refinement: rules\n"),
        SectionFault::Limit { end } => line_of_end(alloc, end, b"limit"),
        SectionFault::Never { end } => line_of_end(alloc, end, b"never"),
        SectionFault::Fact { end, fact } => line_of_fact(alloc, end, fact),
    }
}

// The line of the facts of a copy, by its name.
fn facts_line(alloc: Global, copies: &[SymbolCopy], copy: u64) -> Result<Vec<u8>, Memory>
    ensures { IfOk result (λ text. text.items ≡ copy_line (map annotated_copy copies.now) copy) }
{
    let mut text = Vec::from_slice(alloc, b"no refinement: facts ")?;
    text.extend_from_slice(name_of_copy(copies, copy))?;
    text.extend_from_slice(b"\n")?;
    Ok(text)
}

// The name of the copy with a number from 1 on; nothing where there is no such copy.
fn name_of_copy(copies: &[SymbolCopy], copy: u64) -> &[u8]
    ensures { result.now ≡ copy_name (map annotated_copy copies.now) copy }
{
    match copy_numbered(copies, copy) {
        Some(found) => &found.name.bytes,
        None => &[],
    }
}

// The copy with a number from 1 on, if there is one.
fn copy_numbered(copies: &[SymbolCopy], copy: u64) -> Option<&SymbolCopy>
    ensures { option_map (λ c. annotated_copy c.now) result ≡ numbered (map annotated_copy copies.now) copy }
{
    if copy == 0 {
        return None;
    }
    copies.get(copy as usize - 1)
}

// The line of an end, and what is wrong with it.
fn line_of_end(alloc: Global, end: u64, reason: &[u8]) -> Result<Vec<u8>, Memory>
    ensures { IfOk result (λ text. text.items ≡ end_line end reason.now) }
{
    let mut text = Vec::from_slice(alloc, b"no end ")?;
    push_number(&mut text, end)?;
    text.extend_from_slice(b": ")?;
    text.extend_from_slice(reason)?;
    text.extend_from_slice(b"\n")?;
    Ok(text)
}

// The line of a fact that an end doesn't show.
fn line_of_fact(alloc: Global, end: u64, fact: u64) -> Result<Vec<u8>, Memory>
    ensures { IfOk result (λ text. text.items ≡ fact_line end fact) }
{
    let mut text = Vec::from_slice(alloc, b"no end ")?;
    push_number(&mut text, end)?;
    text.extend_from_slice(b": fact ")?;
    push_number(&mut text, fact)?;
    text.extend_from_slice(b"\n")?;
    Ok(text)
}

// A word, a number, and the end of a line.
fn line_with_number(alloc: Global, word: &[u8], n: u64) -> Result<Vec<u8>, Memory>
    ensures { IfOk result (λ text. text.items ≡ numbered_line word.now n) }
{
    let mut text = Vec::from_slice(alloc, word)?;
    push_number(&mut text, n)?;
    text.extend_from_slice(b"\n")?;
    Ok(text)
}
