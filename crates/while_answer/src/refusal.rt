//! The texts of refusals of a while program's file.

ghost use Rattle.std.specs.Prelude.{◌≡◌, IfOk, IfSome, IsErr, None};
ghost use Rattle.while_text.specs.Views.{refusal_in};
ghost use Rattle.while_answer.specs.Texts.{limit_text as text_of_limit, refusal_line, refusal_text as text_of_refusal};

use itoa::Buffer;
use model::Memory;
use std::alloc::{AllocError, Global};
use while_text::{WhileError, WhileKind};

/// The first fault of a while program's text, and its byte.
///
/// # Errors
///
/// `Memory` if an allocation fails, or if the text wasn't read because memory ran out.
pub fn refusal_text(alloc: Global, error: &WhileError) -> Result<Vec<u8>, Memory>
    ensures result_is { IfOk result (λ text. IfSome (refusal_in error.now) (λ x. text.items ≡ text_of_refusal x)) }
    ensures memory { refusal_in error.now ≡ None → IsErr result }
{
    match error {
        WhileError::NotAscii { at } => refusal_line_at(alloc, *at, b"NotAscii"),
        WhileError::Syntax { at } => refusal_line_at(alloc, *at, b"Syntax"),
        WhileError::NumberTooLarge { at } => refusal_line_at(alloc, *at, b"NumberTooLarge"),
        WhileError::UnknownName { at } => refusal_line_at(alloc, *at, b"UnknownName"),
        WhileError::RepeatedName { at } => refusal_line_at(alloc, *at, b"RepeatedName"),
        WhileError::Limit { kind, at } => refusal_line_at(alloc, *at, limit_text(*kind)),
        WhileError::Memory => Err(AllocError),
    }
}

// The text of the limit that is exceeded.
fn limit_text(kind: WhileKind) -> &'static [u8]
    ensures { result.now ≡ text_of_limit kind }
{
    match kind {
        WhileKind::Name => b"Limit Name",
        WhileKind::Tokens => b"Limit Tokens",
        WhileKind::Terms => b"Limit Terms",
        WhileKind::Degree => b"Limit Degree",
        WhileKind::Atoms => b"Limit Atoms",
        WhileKind::Variables => b"Limit Variables",
        WhileKind::Depth => b"Limit Depth",
        WhileKind::Rules => b"Limit Rules",
    }
}

// The text of a refusal at this byte.
fn refusal_line_at(alloc: Global, at: u64, kind: &[u8]) -> Result<Vec<u8>, Memory>
    ensures { IfOk result (λ text. text.items ≡ refusal_line at kind.now) }
{
    let mut text = Vec::from_slice(alloc, b"program refused at ")?;
    text.extend_from_slice(Buffer::new().format(at).as_bytes())?;
    text.extend_from_slice(b": ")?;
    text.extend_from_slice(kind)?;
    text.extend_from_slice(b"\n")?;
    Ok(text)
}
