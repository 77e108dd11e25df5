//! The text of the refusal of a proof's text.

ghost use Rattle.std.specs.Prelude.{◌≡◌, IfOk, IfSome, IsErr, None};
ghost use Rattle.cert_text.specs.StatedErrors.{refusal_in};
ghost use Rattle.check_text.specs.Texts.{proof_refusal_line, proof_refusal_text};

use cert_text::ProofTextError;
use itoa::Buffer;
use model::Memory;
use std::alloc::{AllocError, Global};

/// The first fault of a proof's text, and its byte.
///
/// # Errors
///
/// `Memory` where an allocation fails, and where the text wasn't read because memory ran out.
pub fn refusal_text(alloc: Global, error: &ProofTextError) -> Result<Vec<u8>, Memory>
    ensures result_is { IfOk result (λ text. IfSome (refusal_in error.now) (λ x. text.items ≡ proof_refusal_text x)) }
    ensures memory { refusal_in error.now ≡ None → IsErr result }
{
    match error {
        ProofTextError::Syntax { at } => refusal_line_at(alloc, *at, b"Syntax"),
        ProofTextError::NumberTooLarge { at } => refusal_line_at(alloc, *at, b"NumberTooLarge"),
        ProofTextError::TooDeep { at } => refusal_line_at(alloc, *at, b"TooDeep"),
        ProofTextError::BadReference { at } => refusal_line_at(alloc, *at, b"BadReference"),
        ProofTextError::Limit { at } => refusal_line_at(alloc, *at, b"Limit"),
        ProofTextError::Memory => Err(AllocError),
    }
}

// The text of a refusal at this byte.
fn refusal_line_at(alloc: Global, at: u64, kind: &[u8]) -> Result<Vec<u8>, Memory>
    ensures { IfOk result (λ text. text.items ≡ proof_refusal_line at kind.now) }
{
    let mut text = Vec::from_slice(alloc, b"proof refused at ")?;
    text.extend_from_slice(Buffer::new().format(at).as_bytes())?;
    text.extend_from_slice(b": ")?;
    text.extend_from_slice(kind)?;
    text.extend_from_slice(b"\n")?;
    Ok(text)
}
