//! A status with its text, before it is written.

ghost use Rattle.std.specs.Prelude.{◌≡◌, IfOk};

use crate::status::Status;
use model::Memory;
use std::alloc::Global;

/// A status with its whole text.
#[derive(Drop)]
pub struct StatusText {
    /// The status with which the call is to end.
    pub status: Status,
    /// The text that is to be written.
    pub text: Vec<u8>,
}

/// The status with this text.
///
/// # Errors
///
/// `Memory` where an allocation fails.
pub fn status_with_text(alloc: Global, status: Status, text: &[u8]) -> Result<StatusText, Memory>
    ensures status { IfOk result (λ reply. reply.status ≡ status) }
    ensures text { IfOk result (λ reply. reply.text.items ≡ text.now) }
{
    Ok(StatusText {
        status,
        text: Vec::from_slice(alloc, text)?,
    })
}
