//! The text of the end of a sequence of tableaux, or of why it isn't reached.

ghost use Rattle.std.specs.Prelude.{◌≡◌, ◌++◌, codes, Some, IfOk, OnOk};
ghost use Rattle.bland_end.specs.declared.whole.WholeError.TheVariants.{Range};
ghost use Rattle.lp_answer.specs.Texts.{fraction_text, value_line, value_lines, end_line, stop_text};
ghost use Rattle.lp_answer.specs.Texts.{end_text as text_of_end};

use frac128::Frac;
use itoa::Buffer;
use simplex_core::Solved;
use std::alloc::{AllocError, Global};

/// The text of an end.
///
/// # Errors
///
/// `AllocError` if an allocation fails.
pub(crate) fn end_text(alloc: Global, solved: &Solved) -> Result<Vec<u8>, AllocError>
    ensures { IfOk result (λ text. text.items ≡ text_of_end solved.now) }
{
    match solved {
        Solved::Optimal { at, pivots, .. } => solved_text(alloc, b"optimal", *pivots, b"x", at),
        Solved::Infeasible { dual, pivots } => solved_text(
            alloc,
            b"infeasible",
            *pivots,
            b"y",
            dual,
        ),
    }
}

// The text of an end with this word and these values.
fn solved_text(
    alloc: Global,
    word: &[u8],
    pivots: u32,
    letter: &[u8],
    values: &[Frac],
) -> Result<Vec<u8>, AllocError>
    ensures { IfOk result (λ text. text.items ≡ end_line word.now pivots ++ value_lines letter.now 0 values.now) }
{
    let mut text = Vec::new(alloc);
    push_end_line(&mut text, word, pivots)?;
    push_values(&mut text, letter, values)?;
    Ok(text)
}

// Writes the first line of an end: its word, and the number of pivots.
fn push_end_line(text: &mut Vec<u8>, word: &[u8], pivots: u32) -> Result<(), AllocError>
    ensures { OnOk result (text.new.items ≡ text.old.items ++ end_line word.now pivots) }
{
    text.extend_from_slice(word)?;
    text.extend_from_slice(b" after ")?;
    text.extend_from_slice(Buffer::new().format(pivots).as_bytes())?;
    text.extend_from_slice(b" pivots\n")
}

// Writes the values, each on a line.
fn push_values(text: &mut Vec<u8>, letter: &[u8], values: &[Frac]) -> Result<(), AllocError>
    ensures { OnOk result (text.new.items ≡ text.old.items ++ value_lines letter.now 0 values.now) }
{
    for i in 0..values.len() {
        push_value(text, letter, i as u64, &values[i])?;
    }
    Ok(())
}

// Writes a value with its letter and its number.
fn push_value(
    text: &mut Vec<u8>,
    letter: &[u8],
    number: u64,
    value: &Frac,
) -> Result<(), AllocError>
    ensures { OnOk result (text.new.items ≡ text.old.items ++ value_line letter.now number value.now) }
{
    text.extend_from_slice(letter)?;
    text.extend_from_slice(Buffer::new().format(number).as_bytes())?;
    text.extend_from_slice(b" = ")?;
    push_fraction(text, value)?;
    text.extend_from_slice(b"\n")
}

// Writes a fraction.
fn push_fraction(text: &mut Vec<u8>, value: &Frac) -> Result<(), AllocError>
    ensures { OnOk result (text.new.items ≡ text.old.items ++ fraction_text value.now.num value.now.den) }
{
    text.extend_from_slice(Buffer::new().format(value.num).as_bytes())?;
    if value.den == 1 {
        return Ok(());
    }
    text.extend_from_slice(b"/")?;
    text.extend_from_slice(Buffer::new().format(value.den).as_bytes())
}

/// The text for a number that is out of range after this many pivots.
///
/// # Errors
///
/// `AllocError` if an allocation fails.
pub(crate) fn range_text(alloc: Global, pivot: u32) -> Result<Vec<u8>, AllocError>
    ensures { IfOk result (λ text. stop_text (Range pivot) ≡ Some text.items) }
{
    let mut text = Vec::from_slice(alloc, b"range at pivot ")?;
    text.extend_from_slice(Buffer::new().format(pivot).as_bytes())?;
    text.extend_from_slice(b"\n")?;
    Ok(text)
}
