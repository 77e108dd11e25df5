//! Reads a lasso whose turn is meant to move on from its text.

ghost use Rattle.std.specs.Prelude.{◌≡◌, IfOk};
ghost use Rattle.its_model.specs.Views.{program_of};
ghost use Rattle.lasso_check.specs.Lassos.{Lasso as LassoOf};
ghost use Rattle.lasso_check.specs.Views.{Answers, GivesBack, lasso_of};
ghost use Rattle.moving_check.specs.Texts.{IsMovingText, exchanged, other_form, is_moving_form};

use lasso_check::{Lasso, LassoTextError, Program, read_lasso};
use std::alloc::Global;

// The position of the form's number in the first line.
const FORM: usize = 11;

/// Reads the lasso that a text of the second form represents, as a lasso of the given program: its first line is
/// `koat-lasso 2`, and all else is as in one of the first form, which `read_lasso` reads.
///
/// # Errors
///
/// Those of `read_lasso` for the text with 1 and 2 exchanged at the number of the form: so a text of the first form is
/// `Syntax` there.
pub fn read_moving(alloc: Global, p: &Program, bytes: &[u8]) -> Result<Lasso, LassoTextError>
    ensures answer { Answers (program_of p.now) (exchanged bytes.now) result }
    ensures text { IfOk result (λ l. IsMovingText (program_of p.now) bytes.now (lasso_of l)) }
    ensures complete { (l : LassoOf) → IsMovingText (program_of p.now) bytes.now l → GivesBack l result }
{
    let mut text = match Vec::from_slice(alloc, bytes) {
        Ok(text) => text,
        Err(_) => return Err(LassoTextError::Memory),
    };
    exchange(&mut text);
    read_lasso(alloc, p, &text)
}

// Writes the number of the other form.
fn exchange(text: &mut Vec<u8>)
    ensures { text.new.items ≡ exchanged text.old.items }
{
    if text.len() > FORM {
        text[FORM] = exchanged_form(text[FORM]);
    }
}

/// Whether a text has the number of the second form in its first line, and so is to be read as one of that form.
pub fn is_moving_form(bytes: &[u8]) -> bool
    ensures { result ≡ is_moving_form bytes.now }
{
    bytes.len() > FORM && bytes[FORM] == b'2'
}

// The byte of the form's number with 1 and 2 exchanged.
fn exchanged_form(byte: u8) -> u8
    ensures { result ≡ other_form byte }
{
    match byte {
        b'1' => b'2',
        b'2' => b'1',
        _ => byte,
    }
}
