//! Prints a rule as a line.

ghost use Rattle.std.specs.Prelude.{◌++◌, codes, map, option_map, OnOk};
ghost use Rattle.its_model.specs.poly_terms.Views.{term_of};
ghost use Rattle.its_text.specs.expr_text.text_core.Names.{name_of};
ghost use Rattle.its_model.specs.Views.{symbol_of, rule_of};
ghost use Rattle.its_writer.specs.Layout.{joined_then};
ghost use Rattle.its_writer.specs.Expressions.{name_at, name_then, expression_then};
ghost use Rattle.its_writer.specs.Texts.{left_names, arrow_then, rule_then};
ghost use Rattle.its_writer.specs.Printing.{WritesAll};

use crate::bytes::write_bytes;
use crate::expression::{write_expression, write_guard};
use its_model::{Name, Rule, Symbol};
use poly_terms::{Expr, Memory};

/// Writes the name of the symbol with a number, if there is one with that number.
///
/// # Errors
///
/// `Memory` if an allocation fails; the contents of `text` are then unspecified.
pub(crate) fn write_symbol(
    text: &mut Vec<u8>,
    symbols: &[Symbol],
    number: u32,
) -> Result<(), Memory>
    ensures { OnOk result (WritesAll text.old.items text.new.items
        (λ rest. name_at (map (λ s. s.name) (map symbol_of symbols.now)) number ++ rest)) }
{
    match symbols.get(number as usize) {
        Some(symbol) => write_bytes(text, &symbol.name.bytes),
        None => Ok(()),
    }
}

// Writes names with commas between them.
fn write_names(text: &mut Vec<u8>, names: &[Name]) -> Result<(), Memory>
    ensures { OnOk result (WritesAll text.old.items text.new.items
        (joined_then (codes ",") name_then (map name_of names.now))) }
{
    let Some((first, others)) = names.split_first() else {
        return Ok(());
    };
    write_bytes(text, &first.bytes)?;
    for name in others {
        write_bytes(text, b",")?;
        write_bytes(text, &name.bytes)?;
    }
    Ok(())
}

// Writes the names of a rule's left variables with commas between them.
fn write_left(text: &mut Vec<u8>, rule: &Rule) -> Result<(), Memory>
    ensures { OnOk result (WritesAll text.old.items text.new.items
        (joined_then (codes ",") name_then (left_names (rule_of rule.now)))) }
{
    let count = rule.names.len().min(rule.left as usize);
    write_names(text, &rule.names[..count])
}

// Writes an arrow, with the cost if there is one.
fn write_arrow(text: &mut Vec<u8>, names: &[Name], cost: &Option<Expr>) -> Result<(), Memory>
    ensures { OnOk result (WritesAll text.old.items text.new.items
        (arrow_then (map name_of names.now) (option_map term_of cost.now))) }
{
    match cost {
        Some(cost) => {
            write_bytes(text, b"-{")?;
            write_expression(text, names, cost)?;
            write_bytes(text, b"}>")
        }
        None => write_bytes(text, b"->"),
    }
}

// Writes expressions with commas between them.
fn write_updates(text: &mut Vec<u8>, names: &[Name], updates: &[Expr]) -> Result<(), Memory>
    ensures { OnOk result (WritesAll text.old.items text.new.items
        (joined_then (codes ",") (expression_then (map name_of names.now)) (map term_of updates.now))) }
{
    let Some((first, others)) = updates.split_first() else {
        return Ok(());
    };
    write_expression(text, names, first)?;
    for update in others {
        write_bytes(text, b",")?;
        write_expression(text, names, update)?;
    }
    Ok(())
}

/// Writes a rule on a line of its own.
///
/// # Errors
///
/// `Memory` if an allocation fails; the contents of `text` are then unspecified.
pub(crate) fn write_rule(text: &mut Vec<u8>, symbols: &[Symbol], rule: &Rule) -> Result<(), Memory>
    ensures { OnOk result (WritesAll text.old.items text.new.items
        (rule_then (map (λ s. s.name) (map symbol_of symbols.now)) (rule_of rule.now))) }
{
    write_bytes(text, b"  ")?;
    write_symbol(text, symbols, rule.source)?;
    write_bytes(text, b"(")?;
    write_left(text, rule)?;
    write_bytes(text, b") ")?;
    write_arrow(text, &rule.names, &rule.cost)?;
    write_bytes(text, b" Com_1(")?;
    write_symbol(text, symbols, rule.target)?;
    write_bytes(text, b"(")?;
    write_updates(text, &rule.names, &rule.updates)?;
    write_bytes(text, b"))")?;
    write_guard(text, &rule.names, &rule.guard)?;
    write_bytes(text, b"\n")
}
