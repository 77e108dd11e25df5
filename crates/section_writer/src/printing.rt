//! Prints a section.

ghost use Rattle.std.specs.Prelude.{◌≡◌, ◌++◌, map, slice_get, IfOk, OnOk};
ghost use Rattle.its_model.specs.Views.{program_of, symbol_of};
ghost use Rattle.refined_programs.specs.Views.{annotated_branch, annotated_copy, annotated_of};
ghost use Rattle.section_writer.specs.Texts as texts;

use crate::cases::{push_cases, push_copy_name};
use crate::numbers::{push_facts, push_number};
use its_model::{Program, Symbol};
use model::Memory;
use refined_programs::{Branch, Section, SymbolCopy};
use std::alloc::Global;

/// The text of a section of a program: a line for each copy, and then one for each branch. The name of a copy or a
/// symbol that isn't there is left out. The call goes as deep as the deepest cases.
///
/// # Errors
///
/// `Memory` where an allocation fails.
#[tactic(auto, unfolding(crate::specs::Texts::text_of))]
pub fn print_section(alloc: Global, p: &Program, section: &Section) -> Result<Vec<u8>, Memory>
    ensures { IfOk result (λ text. text.items ≡ texts.text_of (program_of p.now) (annotated_of section.now)) }
{
    let mut text = Vec::new(alloc);
    push_copies(&mut text, p, &section.copies)?;
    push_branches(&mut text, &section.copies, &section.branches)?;
    Ok(text)
}

// A line for each copy.
fn push_copies(text: &mut Vec<u8>, p: &Program, copies: &[SymbolCopy]) -> Result<(), Memory>
    ensures { OnOk result (text.new.items
        ≡ text.old.items ++ texts.copy_lines (program_of p.now) (map annotated_copy copies.now)) }
{
    for copy in copies {
        push_copy(text, p, copy)?;
    }
    Ok(())
}

// The line of a copy.
fn push_copy(text: &mut Vec<u8>, p: &Program, copy: &SymbolCopy) -> Result<(), Memory>
    ensures { OnOk result (text.new.items
        ≡ text.old.items ++ texts.copy_line (program_of p.now) (annotated_copy copy.now)) }
{
    text.extend_from_slice(b"copy ")?;
    text.extend_from_slice(&copy.name.bytes)?;
    text.extend_from_slice(b" of ")?;
    push_symbol_name(text, &p.symbols, copy.over)?;
    text.extend_from_slice(b" facts ")?;
    push_facts(text, &copy.facts)?;
    text.extend_from_slice(b"\n")
}

// The name of the symbol with a number; nothing where there is no such symbol.
fn push_symbol_name(text: &mut Vec<u8>, symbols: &[Symbol], symbol: u32) -> Result<(), Memory>
    ensures { OnOk result
        (text.new.items ≡ text.old.items ++ texts.symbol_name (slice_get (map symbol_of symbols.now) symbol)) }
{
    match symbols.get(symbol as usize) {
        Some(symbol) => text.extend_from_slice(&symbol.name.bytes),
        None => Ok(()),
    }
}

// A line for each branch.
fn push_branches(
    text: &mut Vec<u8>,
    copies: &[SymbolCopy],
    branches: &[Branch],
) -> Result<(), Memory>
    ensures { OnOk result (text.new.items ≡ text.old.items
        ++ texts.branch_lines (map annotated_copy copies.now) (map annotated_branch branches.now)) }
{
    for branch in branches {
        push_branch(text, copies, branch)?;
    }
    Ok(())
}

// The line of a branch.
fn push_branch(text: &mut Vec<u8>, copies: &[SymbolCopy], branch: &Branch) -> Result<(), Memory>
    ensures { OnOk result (text.new.items ≡ text.old.items
        ++ texts.branch_line (map annotated_copy copies.now) (annotated_branch branch.now)) }
{
    text.extend_from_slice(b"from ")?;
    push_copy_name(text, copies, branch.source)?;
    text.extend_from_slice(b" rule ")?;
    push_number(text, u64::from(branch.rule))?;
    text.extend_from_slice(b" ")?;
    push_cases(text, copies, &branch.cases)?;
    text.extend_from_slice(b"\n")
}
