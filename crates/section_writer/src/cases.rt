//! Prints the cases of a branch.

ghost use Rattle.std.specs.Prelude.{◌≡◌, ◌++◌, map, slice_get, OnOk};
ghost use Rattle.refined_programs.specs.Views.{annotated_cases, annotated_copy};
ghost use Rattle.section_writer.specs.Texts.{cases_text, copy_name};

use crate::numbers::{push_form, push_lists, push_numbers};
use model::Memory;
use refined_programs::{Cases, SymbolCopy};

/// The name of the copy with a number; nothing where there is no such copy.
pub(crate) fn push_copy_name(
    text: &mut Vec<u8>,
    copies: &[SymbolCopy],
    copy: u32,
) -> Result<(), Memory>
    ensures { OnOk result
        (text.new.items ≡ text.old.items ++ copy_name (slice_get (map annotated_copy copies.now) copy)) }
{
    match copies.get(copy as usize) {
        Some(copy) => text.extend_from_slice(&copy.name.bytes),
        None => Ok(()),
    }
}

/// Cases. The call goes as deep as they do.
pub(crate) fn push_cases(
    text: &mut Vec<u8>,
    copies: &[SymbolCopy],
    cases: &Cases,
) -> Result<(), Memory>
    ensures { OnOk result (text.new.items
        ≡ text.old.items ++ cases_text (map annotated_copy copies.now) (annotated_cases cases.now)) }
{
    match cases {
        Cases::To { copy, by } => {
            text.extend_from_slice(b"to ")?;
            push_copy_name(text, copies, *copy)?;
            text.extend_from_slice(b" by ")?;
            push_lists(text, by)
        }
        Cases::Never { by } => {
            text.extend_from_slice(b"never ")?;
            push_numbers(text, &by.numbers)
        }
        Cases::If { test, yes, no } => {
            text.extend_from_slice(b"if ")?;
            push_form(text, test)?;
            text.extend_from_slice(b" then (")?;
            push_cases(text, copies, yes)?;
            text.extend_from_slice(b") else (")?;
            push_cases(text, copies, no)?;
            text.extend_from_slice(b")")
        }
    }
}
