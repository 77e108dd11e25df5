//! Readers of the texts of files of some kind.

ghost use Rattle.std.specs.Prelude.{◌≡◌, ℕ, List, IfOk};
ghost use Rattle.call_plans.specs.Kinds.{TextKind};
ghost use Rattle.call_plans.specs.Plans.{Cases};
ghost use Rattle.call_plans.specs.Steps.{IsRead};

use crate::status::Status;
use model::Memory;
use std::alloc::Global;

/// The result of reading bytes.
#[derive(Drop)]
pub enum Read<T> {
    /// The meaning of the bytes.
    Meaning(T),
    /// The text that refuses them.
    Refusal(Vec<u8>),
}

/// A reader of texts of one kind.
///
/// Its meanings are `Plain`, the plain data that texts represent; `kind`, the kind of the texts; `plain`, a meaning
/// as plain data; `ready`, the property of a reader that may read; and `answers`, the table by which a `FileCommand`
/// answers for a text, which is `End` for a reader that is none.
pub trait Reader {
    /// The meaning of a text.
    type Meaning: Drop;

    ghost Plain: { Type 0 };

    ghost kind: { Self → TextKind Plain };

    ghost plain: { Self.Meaning → Plain };

    ghost ready: { Self → Type 0 };

    ghost answers: { Self → Plain → Cases };

    /// The greatest number of bytes of a text.
    fn limit(&self) -> u64
        ensures { result ≡ (kind self.now).limit };

    /// The status with which bytes are refused.
    fn refusal_status(&self) -> Status
        ensures { result ≡ (kind self.now).refused };

    /// The text where there are too many bytes.
    fn too_long(&self) -> &'static [u8]
        ensures { result.now ≡ (kind self.now).too_long };

    /// The meaning of the bytes, or the text that refuses them.
    ///
    /// # Errors
    ///
    /// `Memory` where an allocation fails.
    fn read(&self, alloc: Global, bytes: &[u8]) -> Result<Read<Self::Meaning>, Memory>
        requires { ready self.now }
        ensures { IfOk result (IsRead (kind self.now) (λ meaning. plain meaning) bytes.now) };
}
