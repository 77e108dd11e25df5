//! The names of all variables of a program.

ghost use Rattle.std.specs.Prelude.{◌≡◌, [], codes, drop, map, take, IfOk, OnOk};
ghost use Rattle.its_text.specs.expr_text.text_core.Names.{name_of};
ghost use Rattle.its_model.specs.Views.{rule_of};
ghost use Rattle.expr_reader.specs.Variables.{names_in};
ghost use Rattle.its_writer.specs.Layout.{each_then, arrow_by};
ghost use Rattle.its_writer.specs.Expressions.{name_then};
ghost use Rattle.its_writer.specs.Texts.{with_names, with_rules};
ghost use Rattle.its_writer.specs.Printing.{WritesAll};

use crate::bytes::write_bytes;
use expr_reader::Variables;
use its_model::{Name, Rule};
use poly_terms::Memory;
use std::alloc::Global;

// Appends those names to the known ones that aren't among them.
fn add_names<'a>(known: &mut Variables<'a>, names: &'a [Name]) -> Result<(), Memory>
    ensures { OnOk result (names_in known.new ≡ with_names (names_in known.old) (map name_of names.now)) }
{
    for name in names {
        known.number(&name.bytes)?;
    }
    Ok(())
}

/// The names of all variables of rules, in order of first occurrence.
///
/// # Errors
///
/// `Memory` if an allocation fails.
pub(crate) fn variables_of<'a>(alloc: Global, rules: &'a [Rule]) -> Result<Variables<'a>, Memory>
    ensures { IfOk result (λ known. names_in known ≡ with_rules [] (map rule_of rules.now)) }
{
    let mut known = Variables::new(alloc);
    for rule in rules {
        add_names(&mut known, &rule.names)?;
    }
    Ok(known)
}

// Writes the name with a number after a blank, if there is one with that number.
fn write_variable(text: &mut Vec<u8>, known: &Variables<'_>, number: usize) -> Result<(), Memory>
    ensures { OnOk result (WritesAll text.old.items text.new.items
        (each_then (arrow_by (codes " ") name_then) (take 1 (drop number (names_in known.now))))) }
{
    match known.names().get_index(number) {
        Some(name) => {
            write_bytes(text, b" ")?;
            write_bytes(text, name)
        }
        None => Ok(()),
    }
}

/// Writes names, each after a blank.
///
/// # Errors
///
/// `Memory` if an allocation fails; the contents of `text` are then unspecified.
pub(crate) fn write_variables(text: &mut Vec<u8>, known: &Variables<'_>) -> Result<(), Memory>
    ensures { OnOk result (WritesAll text.old.items text.new.items
        (each_then (arrow_by (codes " ") name_then) (names_in known.now))) }
{
    for i in 0..known.count() {
        write_variable(text, known, i)?;
    }
    Ok(())
}
