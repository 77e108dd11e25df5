//! Prints compositions of facts, and charges.

ghost use Rattle.std.specs.Prelude.{◌≡◌, ◌++◌, map, codes, OnOk};
ghost use Rattle.section_writer.specs.Lists.{each_behind, separated};
ghost use Rattle.potential_types.specs.Views.{charge_of, combination_of};
ghost use Rattle.potential_writer.specs.Lemmas.{charge_text, combination_text};

use crate::numbers::push_number;
use crate::polynomials::push_form;
use model::Memory;
use potential_types::{Charge, Combination};

/// A composition of facts.
pub(crate) fn push_combination(text: &mut Vec<u8>, combination: &Combination) -> Result<(), Memory>
    ensures { OnOk result (text.new.items ≡ text.old.items ++ combination_text (combination_of combination.now)) }
{
    match combination {
        Combination::Times {
            rule,
            form,
            time,
            peak,
        } => {
            text.extend_from_slice(b"times ")?;
            push_form(text, *rule, form)?;
            text.extend_from_slice(b" by ")?;
            push_number(text, *time)?;
            text.extend_from_slice(b" ")?;
            push_number(text, *peak)
        }
        Combination::Least(first, second) => {
            text.extend_from_slice(b"least ")?;
            push_number(text, *first)?;
            text.extend_from_slice(b" ")?;
            push_number(text, *second)
        }
        Combination::Add(first, second) => {
            text.extend_from_slice(b"add ")?;
            push_number(text, *first)?;
            text.extend_from_slice(b" ")?;
            push_number(text, *second)
        }
        Combination::Among(charges, whole) => {
            text.extend_from_slice(b"among [")?;
            push_charges(text, charges)?;
            text.extend_from_slice(b"] by ")?;
            push_number(text, *whole)
        }
    }
}

// The charges, with a semicolon and a blank between them.
fn push_charges(text: &mut Vec<u8>, charges: &[Charge]) -> Result<(), Memory>
    ensures { OnOk result (text.new.items
        ≡ text.old.items ++ separated (codes "; ") (map charge_text (map charge_of charges.now))) }
{
    let Some((first, others)) = charges.split_first() else {
        return Ok(());
    };
    push_charge(text, first)?;
    push_more_charges(text, others)
}

// A semicolon and a blank before each charge.
fn push_more_charges(text: &mut Vec<u8>, charges: &[Charge]) -> Result<(), Memory>
    ensures { OnOk result (text.new.items
        ≡ text.old.items ++ each_behind (codes "; ") (map charge_text (map charge_of charges.now))) }
{
    for charge in charges {
        text.extend_from_slice(b"; ")?;
        push_charge(text, charge)?;
    }
    Ok(())
}

// A charge.
fn push_charge(text: &mut Vec<u8>, charge: &Charge) -> Result<(), Memory>
    ensures { OnOk result (text.new.items ≡ text.old.items ++ charge_text (charge_of charge.now)) }
{
    push_form(text, charge.rule, &charge.form)
}
