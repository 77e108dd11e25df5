//! The texts of refusals of a linear program's file.

ghost use Rattle.std.specs.Prelude.{◌≡◌, IfOk, IfSome, IsErr, None};
ghost use Rattle.lp_text.specs.Views.{refusal_in};
ghost use Rattle.lp_answer.specs.Texts.{refusal_line, refusal_text as text_of_refusal};

use itoa::Buffer;
use lp_text::LpTextError;
use std::alloc::{AllocError, Global};

/// The text of the first fault of a linear program's file, with its byte.
///
/// # Errors
///
/// `AllocError` if an allocation fails, or if the error is that memory ran out.
pub fn refusal_text(alloc: Global, error: &LpTextError) -> Result<Vec<u8>, AllocError>
    ensures result_is { IfOk result
        (λ text. IfSome (refusal_in error.now) (λ x. text.items ≡ text_of_refusal x)) }
    ensures memory { refusal_in error.now ≡ None → IsErr result }
{
    match error {
        LpTextError::Syntax { at } => refusal_line_at(alloc, *at, b"Syntax"),
        LpTextError::NumberTooLarge { at } => refusal_line_at(alloc, *at, b"NumberTooLarge"),
        LpTextError::Limit { at } => refusal_line_at(alloc, *at, b"Limit"),
        LpTextError::Memory => Err(AllocError),
    }
}

// The text of a refusal at this byte.
fn refusal_line_at(alloc: Global, at: u64, kind: &[u8]) -> Result<Vec<u8>, AllocError>
    ensures { IfOk result (λ text. text.items ≡ refusal_line at kind.now) }
{
    let mut text = Vec::from_slice(alloc, b"program refused at ")?;
    text.extend_from_slice(Buffer::new().format(at).as_bytes())?;
    text.extend_from_slice(b": ")?;
    text.extend_from_slice(kind)?;
    text.extend_from_slice(b"\n")?;
    Ok(text)
}
