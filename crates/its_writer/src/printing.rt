//! Prints a program as its canonical text.

ghost use Rattle.std.specs.Prelude.{◌≡◌, map, IfOk, OnOk};
ghost use Rattle.its_model.specs.Views.{symbol_of, rule_of, program_of};
ghost use Rattle.its_writer.specs.Layout.{each_then};
ghost use Rattle.its_writer.specs.Texts.{rule_then, program_then, canonical_text};
ghost use Rattle.its_writer.specs.Answers.{SpellsBack};
ghost use Rattle.its_writer.specs.Printing.{WritesAll};

use crate::bytes::write_bytes;
use crate::names::{variables_of, write_variables};
use crate::rule::{write_rule, write_symbol};
use its_model::{Program, Rule, Symbol};
use poly_terms::Memory;
use std::alloc::Global;

/// The canonical text of a program. The recursion is as deep as its expressions. The text spells the program, if any
/// text does. A number that has no name or symbol is left out, and a negative literal has its sign and no brackets, so
/// the text of such a program spells another program, which may have other values: `-7^2` is `-(7^2)`.
///
/// # Errors
///
/// `Memory` if an allocation fails.
pub fn print(alloc: Global, p: &Program) -> Result<Vec<u8>, Memory>
    ensures text { IfOk result (λ text. text.items ≡ canonical_text (program_of p.now)) }
    ensures spelled { IfOk result (λ text. SpellsBack text.items (program_of p.now)) }
{
    let mut text = Vec::new(alloc);
    write_program(alloc, &mut text, p)?;
    Ok(text)
}

// Writes the sections of a program.
fn write_program(alloc: Global, text: &mut Vec<u8>, p: &Program) -> Result<(), Memory>
    ensures { OnOk result (WritesAll text.old.items text.new.items (program_then (program_of p.now))) }
{
    let variables = variables_of(alloc, &p.rules)?;
    write_bytes(text, b"(GOAL COMPLEXITY)\n(STARTTERM (FUNCTIONSYMBOLS ")?;
    write_symbol(text, &p.symbols, p.start)?;
    write_bytes(text, b"))\n(VAR")?;
    write_variables(text, &variables)?;
    write_bytes(text, b")\n(RULES\n")?;
    write_rules(text, &p.symbols, &p.rules)?;
    write_bytes(text, b")\n")
}

// Writes rules, each on a line.
fn write_rules(text: &mut Vec<u8>, symbols: &[Symbol], rules: &[Rule]) -> Result<(), Memory>
    ensures { OnOk result (WritesAll text.old.items text.new.items
        (each_then (rule_then (map (λ s. s.name) (map symbol_of symbols.now))) (map rule_of rules.now))) }
{
    for rule in rules {
        write_rule(text, symbols, rule)?;
    }
    Ok(())
}
