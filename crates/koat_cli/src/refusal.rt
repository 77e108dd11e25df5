//! The text of a refusal of a program.

ghost use Rattle.std.specs.Prelude.{◌≡◌, IfOk, IfSome, IsErr, None};
ghost use Rattle.its_reader.specs.Faults.{fault_in, limit_of};
ghost use Rattle.koat_cli.specs.Report.{limit_text as text_of_limit, refusal_line, refusal_text};

use itoa::Buffer;
use its_reader::{LimitKind, ReadError};
use model::Memory;
use std::alloc::{AllocError, Global};

/// The first fault of a program's text, and its byte.
///
/// # Errors
///
/// `Memory` where an allocation fails, and where the text wasn't read because memory ran out.
pub(crate) fn refusal(alloc: Global, error: &ReadError) -> Result<Vec<u8>, Memory>
    ensures result_is { IfOk result (λ text. IfSome (fault_in error.now) (λ x. text.items ≡ refusal_text x)) }
    ensures memory { fault_in error.now ≡ None → IsErr result }
{
    match error {
        ReadError::NotAscii { at } => refusal_line_at(alloc, *at, b"NotAscii"),
        ReadError::Syntax { at } => refusal_line_at(alloc, *at, b"Syntax"),
        ReadError::MissingSection { at } => refusal_line_at(alloc, *at, b"MissingSection"),
        ReadError::RepeatedSection { at } => refusal_line_at(alloc, *at, b"RepeatedSection"),
        ReadError::ManyTargets { at } => refusal_line_at(alloc, *at, b"ManyTargets"),
        ReadError::LeftNotVariable { at } => refusal_line_at(alloc, *at, b"LeftNotVariable"),
        ReadError::LeftRepeated { at } => refusal_line_at(alloc, *at, b"LeftRepeated"),
        ReadError::ArityDiffers { at } => refusal_line_at(alloc, *at, b"ArityDiffers"),
        ReadError::NumberTooLarge { at } => refusal_line_at(alloc, *at, b"NumberTooLarge"),
        ReadError::Limit { kind, at } => refusal_line_at(alloc, *at, limit_text(*kind)),
        ReadError::StartUnknown { at } => refusal_line_at(alloc, *at, b"StartUnknown"),
        ReadError::Disjunction { at } => refusal_line_at(alloc, *at, b"Disjunction"),
        ReadError::Memory => Err(AllocError),
    }
}

// The limit that is exceeded.
fn limit_text(kind: LimitKind) -> &'static [u8]
    ensures { result.now ≡ text_of_limit (limit_of kind) }
{
    match kind {
        LimitKind::Rules => b"Limit Rules",
        LimitKind::Arity => b"Limit Arity",
        LimitKind::Variables => b"Limit Variables",
        LimitKind::Atoms => b"Limit Atoms",
        LimitKind::Name => b"Limit Name",
        LimitKind::Tokens => b"Limit Tokens",
        LimitKind::Terms => b"Limit Terms",
        LimitKind::Degree => b"Limit Degree",
    }
}

// The text of a refusal at this byte.
fn refusal_line_at(alloc: Global, at: u64, kind: &[u8]) -> Result<Vec<u8>, Memory>
    ensures { IfOk result (λ text. text.items ≡ refusal_line at kind.now) }
{
    let mut buffer = Buffer::new();
    let mut text = Vec::from_slice(alloc, b"program refused at ")?;
    text.extend_from_slice(buffer.format(at).as_bytes())?;
    text.extend_from_slice(b": ")?;
    text.extend_from_slice(kind)?;
    text.extend_from_slice(b"\n")?;
    Ok(text)
}
