//! The text of a file that was found.

ghost use Rattle.std.specs.Prelude.{◌≡◌, IfOk};
ghost use Rattle.its_model.specs.Valid.{IsValid};
ghost use Rattle.its_model.specs.Views.{program_of};
ghost use Rattle.best_bounds.specs.Found.{IsAcceptedFileFor, accepted_text};

use crate::found_bounds::AcceptedFile;
use check_refined::accepted_program;
use its_model::Program;
use poly_terms::Memory;
use refined_writer::print_refined;
use std::alloc::{AllocError, Global};

/// The text of a proof file that was found. The caller reads it back and has it checked.
///
/// # Errors
///
/// `Memory` where an allocation fails.
pub fn certificate(alloc: Global, p: &Program, accepted: &AcceptedFile) -> Result<Vec<u8>, Memory>
    requires valid { IsValid (program_of p.now) }
    requires accepted { IsAcceptedFileFor (program_of p.now) accepted.now }
    ensures { IfOk result (λ text. text.items ≡ accepted_text (program_of p.now) accepted.now) }
{
    match &accepted.file.section {
        None => print_refined(alloc, p, p, &accepted.file),
        Some(section) => match accepted_program(alloc, p, section) {
            Ok(refined) => print_refined(alloc, p, &refined, &accepted.file),
            // It was accepted before, so memory is short.
            Err(_) => Err(AllocError),
        },
    }
}
