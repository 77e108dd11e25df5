//! Prints numbers, lists of numbers, and forms.

ghost use Rattle.std.specs.Prelude.{◌≡◌, ◌++◌, map, codes, decimal, OnOk};
ghost use Rattle.std.specs.Fmt.{signed_decimal};
ghost use Rattle.refined_programs.specs.Ends.{lists_of};
ghost use Rattle.refined_programs.specs.Views.{affine_form};
ghost use Rattle.section_writer.specs.Lists.{each_before, each_behind, number_list, separated};
ghost use Rattle.section_writer.specs.Texts.{facts_text, form_text, lists_text};

use itoa::Buffer;
use model::Memory;
use refined_programs::{Affine, Multipliers};

/// A number.
pub(crate) fn push_number(text: &mut Vec<u8>, n: u64) -> Result<(), Memory>
    ensures { OnOk result (text.new.items ≡ text.old.items ++ decimal n) }
{
    text.extend_from_slice(Buffer::new().format(n).as_bytes())
}

// A number with its sign.
fn push_signed(text: &mut Vec<u8>, n: i64) -> Result<(), Memory>
    ensures { OnOk result (text.new.items ≡ text.old.items ++ signed_decimal n) }
{
    text.extend_from_slice(Buffer::new().format(n).as_bytes())
}

/// Numbers in square brackets, with a blank between them.
pub(crate) fn push_numbers(text: &mut Vec<u8>, numbers: &[u64]) -> Result<(), Memory>
    ensures { OnOk result (text.new.items ≡ text.old.items ++ number_list numbers.now) }
{
    text.extend_from_slice(b"[")?;
    push_separated_numbers(text, numbers)?;
    text.extend_from_slice(b"]")
}

// The numbers, with a blank between them.
fn push_separated_numbers(text: &mut Vec<u8>, numbers: &[u64]) -> Result<(), Memory>
    ensures { OnOk result (text.new.items ≡ text.old.items ++ separated (codes " ") (map decimal numbers.now)) }
{
    let Some((first, others)) = numbers.split_first() else {
        return Ok(());
    };
    push_number(text, *first)?;
    push_more_numbers(text, others)
}

// A blank before each number.
fn push_more_numbers(text: &mut Vec<u8>, numbers: &[u64]) -> Result<(), Memory>
    ensures { OnOk result (text.new.items ≡ text.old.items ++ each_behind (codes " ") (map decimal numbers.now)) }
{
    for number in numbers {
        text.extend_from_slice(b" ")?;
        push_number(text, *number)?;
    }
    Ok(())
}

/// Lists of multipliers in square brackets, with a semicolon and a blank between them.
pub(crate) fn push_lists(text: &mut Vec<u8>, by: &[Multipliers]) -> Result<(), Memory>
    ensures { OnOk result (text.new.items ≡ text.old.items ++ lists_text (lists_of by.now)) }
{
    text.extend_from_slice(b"[")?;
    push_separated_lists(text, by)?;
    text.extend_from_slice(b"]")
}

// The lists, with a semicolon and a blank between them.
fn push_separated_lists(text: &mut Vec<u8>, by: &[Multipliers]) -> Result<(), Memory>
    ensures { OnOk result (text.new.items ≡ text.old.items
        ++ separated (codes "; ") (map number_list (lists_of by.now))) }
{
    let Some((first, others)) = by.split_first() else {
        return Ok(());
    };
    push_numbers(text, &first.numbers)?;
    push_more_lists(text, others)
}

// A semicolon and a blank before each list.
fn push_more_lists(text: &mut Vec<u8>, by: &[Multipliers]) -> Result<(), Memory>
    ensures { OnOk result (text.new.items ≡ text.old.items
        ++ each_behind (codes "; ") (map number_list (lists_of by.now))) }
{
    for list in by {
        text.extend_from_slice(b"; ")?;
        push_numbers(text, &list.numbers)?;
    }
    Ok(())
}

/// The coefficients of a form, then its constant.
pub(crate) fn push_form(text: &mut Vec<u8>, form: &Affine) -> Result<(), Memory>
    ensures { OnOk result (text.new.items ≡ text.old.items ++ form_text (affine_form form.now)) }
{
    text.extend_from_slice(b"[")?;
    push_each_before(text, &form.coefs)?;
    push_signed(text, form.constant)?;
    text.extend_from_slice(b"]")
}

// Numbers with their signs, and a blank after each.
fn push_each_before(text: &mut Vec<u8>, numbers: &[i64]) -> Result<(), Memory>
    ensures { OnOk result (text.new.items ≡ text.old.items ++ each_before numbers.now) }
{
    for number in numbers {
        push_signed(text, *number)?;
        text.extend_from_slice(b" ")?;
    }
    Ok(())
}

/// Facts in square brackets, with a semicolon and a blank between them.
pub(crate) fn push_facts(text: &mut Vec<u8>, facts: &[Affine]) -> Result<(), Memory>
    ensures { OnOk result (text.new.items ≡ text.old.items ++ facts_text (map affine_form facts.now)) }
{
    text.extend_from_slice(b"[")?;
    push_separated_facts(text, facts)?;
    text.extend_from_slice(b"]")
}

// The facts, with a semicolon and a blank between them.
fn push_separated_facts(text: &mut Vec<u8>, facts: &[Affine]) -> Result<(), Memory>
    ensures { OnOk result (text.new.items ≡ text.old.items
        ++ separated (codes "; ") (map form_text (map affine_form facts.now))) }
{
    let Some((first, others)) = facts.split_first() else {
        return Ok(());
    };
    push_form(text, first)?;
    push_more_facts(text, others)
}

// A semicolon and a blank before each fact.
fn push_more_facts(text: &mut Vec<u8>, facts: &[Affine]) -> Result<(), Memory>
    ensures { OnOk result (text.new.items ≡ text.old.items
        ++ each_behind (codes "; ") (map form_text (map affine_form facts.now))) }
{
    for fact in facts {
        text.extend_from_slice(b"; ")?;
        push_form(text, fact)?;
    }
    Ok(())
}
