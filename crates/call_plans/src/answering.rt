//! Reads a file and gives the command's answer on it.

ghost use Rattle.std.specs.Prelude.{◌≡◌, ◌≤◌, ◌<◌, List, ℕ, IfOk, string_bytes};
ghost use Rattle.outside_io.specs.Counts.{one_more};
ghost use Rattle.call_plans.specs.Calls.{shelf_use_of};
ghost use Rattle.call_plans.specs.Plans.{Answers, Reads, HasRow, IsAnswerByPlan};

use crate::file_reading::{FetchResult, fetch_and_read};
use crate::reader::Reader;
use crate::status::Status;
use crate::status_text::StatusText;
use model::Memory;
use outside_io::Shelf;
use std::alloc::Global;

/// A reader of a command that answers by its table, for the meaning of the file's text.
pub trait FileCommand: Reader {
    /// The answer for the meaning of some bytes.
    ///
    /// # Errors
    ///
    /// `Memory` where an allocation fails.
    fn answer(&self, alloc: Global, meaning: &Self::Meaning) -> Result<StatusText, Memory>
        requires ready { Self.ready self.now }
        requires read { (bytes : List ℕ) × (Self.kind self.now).StandsFor bytes (Self.plain meaning.now) }
        ensures { IfOk result (λ reply.
            HasRow (Self.answers self.now (Self.plain meaning.now)) reply.status reply.text.items) };
}

/// Fetches the file of a command, once, and gives the answer for the meaning of its text, or that the file has no text
/// of the command's kind. The shelf's contents don't change.
///
/// # Errors
///
/// `Memory` where an allocation fails.
pub fn answer_file<C: FileCommand, F: Shelf>(
    alloc: Global,
    command: &C,
    file: &String,
    shelf: &mut F,
) -> Result<StatusText, Memory>
    requires { C.ready command.now }
    ensures keeps_files { F.files_if_disclosed shelf.new ≡ F.files_if_disclosed shelf.old }
    ensures keeps_count { F.faults shelf.old ≤ F.faults shelf.new }
    ensures counted { F.fetches shelf.new ≡ one_more (F.fetches shelf.old) }
    ensures fault { IfOk result (λ reply.
        F.faults shelf.old < F.faults shelf.new → reply.status ≡ Status.ReadFault) }
    ensures says { IfOk result (λ reply. IsAnswerByPlan (shelf_use_of F.Shelf shelf.old shelf.new) (F.fetches shelf.old)
        (Reads (C.kind command.now) (string_bytes file.now) (λ meaning. Answers (C.answers command.now meaning)))
        reply.status reply.text.items) }
{
    match fetch_and_read(alloc, command, file, shelf)? {
        FetchResult::Answer(reply) => Ok(reply),
        FetchResult::Meaning(meaning) => command.answer(alloc, &meaning),
    }
}
