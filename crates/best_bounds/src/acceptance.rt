//! Has the checker accept or refuse what was found.

ghost use Rattle.std.specs.Prelude.{◌≡◌, [], IfOk, IfSome};
ghost use Rattle.its_model.specs.Valid.{IsValid};
ghost use Rattle.its_model.specs.Views.{program_of};
ghost use Rattle.best_bounds.specs.Found.{IsAcceptedFileFor, IsFoundFor};

use crate::found_bounds::{AcceptedFile, Found};
use cert_types::ProofFile;
use check_file::can_be_numbered;
use check_refined::{FileRefusal, check_refined_file};
use its_model::Program;
use poly_terms::Memory;
use refined_types::RefinedFile;
use std::alloc::{AllocError, Global};

/// A file with what its claims state, if the checker accepts it.
///
/// # Errors
///
/// `Memory` where an allocation fails.
#[tactic(auto, using(crate::proofs::EmptyFiles::no_lemma_written))]
pub(crate) fn file_if_accepted(
    alloc: Global,
    p: &Program,
    file: RefinedFile,
) -> Result<Option<AcceptedFile>, Memory>
    requires valid { IsValid (program_of p.now) }
    requires no_plain { file.plain.lemmas.items ≡ [] }
    ensures { IfOk result (λ accepted. IfSome accepted (IsAcceptedFileFor (program_of p.now))) }
{
    if !can_be_numbered(&file.plain) {
        return Ok(None);
    }
    match check_refined_file(alloc, p, &file) {
        Ok(stated) => Ok(Some(AcceptedFile { file, stated })),
        Err(FileRefusal::Memory) => Err(AllocError),
        Err(_) => Ok(None),
    }
}

/// What is found before any search: the file without claims.
#[tactic(auto, using(crate::proofs::EmptyFiles::nothing_is_found))]
pub(crate) fn found_before_search(alloc: Global, p: &Program) -> Found
    ensures { IsFoundFor (program_of p.now) result }
{
    Found {
        file: empty_file(alloc, p),
        best: Vec::new(alloc),
    }
}

// The file without claims, which is accepted for each program.
fn empty_file(alloc: Global, p: &Program) -> AcceptedFile
    ensures accepted { IsAcceptedFileFor (program_of p.now) result }
    ensures empty { result.stated.items ≡ [] }
{
    refined_files::small_files_are_judged();
    AcceptedFile {
        file: RefinedFile {
            section: None,
            plain: ProofFile {
                lemmas: Vec::new(alloc),
                gaps: Vec::new(alloc),
            },
            signed: Vec::new(alloc),
            claims: Vec::new(alloc),
        },
        stated: Vec::new(alloc),
    }
}
