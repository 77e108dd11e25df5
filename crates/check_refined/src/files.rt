//! Whole files.

ghost use Rattle.std.specs.Prelude.{map, IfOk, MatchResult};
ghost use Rattle.its_model.specs.Valid.{IsValid};
ghost use Rattle.its_model.specs.Views.{program_of};
ghost use Rattle.program_claims.specs.Claims.{AllHoldOf};
ghost use Rattle.check_file.specs.Files.{CanBeNumbered};
ghost use Rattle.claims_check.specs.Views.{stated_of};
ghost use Rattle.refined_types.specs.Views.{file_view};
ghost use Rattle.check_refined.specs.Files.{IsSpelledOrItself, IsAcceptedWith, RefusesFile, RefusedFilesAreNotAccepted};
ghost use Rattle.check_refined.specs.Worked.{FilesAreAnswered};

use crate::lemmas::stated_facts;
use crate::refusal::FileRefusal;
use crate::section::accepted_program;
use claims_check::{Evidence, Statement, check_claims};
use its_model::Program;
use refined_types::RefinedFile;
use std::alloc::Global;

/// Checks a proof file of the third form for a valid program: `Ok`, with what its claims state, in order, exactly if
/// the file is accepted and memory suffices. Then each of these statements holds on all runs of the program itself,
/// from any integers and by any choice of rules, whoever made the file. `can_be_numbered` of `check_file` tells whether
/// the plain part can be numbered.
///
/// The program that the section spells is made once, and its rows are prepared once for each of the two kinds of
/// lemmas. Whoever needs that program before, to read the rest of the file, makes it by `accepted_program` and then
/// calls `check_over`.
///
/// # Errors
///
/// The first part that isn't accepted, in this order, with its first fault: `Names` and `Section` of the section,
/// `Node` and `Gap` of the plain part, `Lemma` of the lemmas about potentials, `Claim` of the claims; `Memory` where an
/// allocation fails.
pub fn check_refined_file(
    alloc: Global,
    p: &Program,
    file: &RefinedFile,
) -> Result<Vec<Statement>, FileRefusal>
    requires valid { IsValid (program_of p.now) }
    requires numbered { CanBeNumbered file.now.plain }
    ensures answered { MatchResult result
        (λ stated. IsAcceptedWith (program_of p.now) (file_view file.now) (map stated_of stated.items))
        (λ refusal. RefusesFile (program_of p.now) (file_view file.now) refusal) }
    ensures holds { IfOk result (λ stated. AllHoldOf (program_of p.now) (map stated_of stated.items)) }
{
    match &file.section {
        None => check_over(alloc, p, p, file),
        Some(section) => {
            let spelled_program = accepted_program(alloc, p, section)?;
            check_over(alloc, p, &spelled_program, file)
        }
    }
}

/// Checks the other parts of a file whose section, where it has one, is accepted, over the program that the section
/// spells, or over the program itself where there is no section.
///
/// # Errors
///
/// As those of `check_refined_file`.
pub fn check_over(
    alloc: Global,
    p: &Program,
    spelled_program: &Program,
    file: &RefinedFile,
) -> Result<Vec<Statement>, FileRefusal>
    requires valid { IsValid (program_of p.now) }
    requires spelled { IsSpelledOrItself (program_of p.now) (file_view file.now).section
        (program_of spelled_program.now) }
    requires numbered { CanBeNumbered file.now.plain }
    ensures answered { MatchResult result
        (λ stated. IsAcceptedWith (program_of p.now) (file_view file.now) (map stated_of stated.items))
        (λ refusal. RefusesFile (program_of p.now) (file_view file.now) refusal) }
    ensures holds { IfOk result (λ stated. AllHoldOf (program_of p.now) (map stated_of stated.items)) }
{
    refined_files::accepted_refined_files_hold();
    let facts = stated_facts(alloc, spelled_program, &file.plain, &file.signed)?;
    let evidence = Evidence {
        program: p,
        section: file.section.as_ref(),
        above: spelled_program,
        facts: &facts,
    };
    let stated = check_claims(alloc, evidence, &file.claims)?;
    Ok(stated)
}

/// A file that is refused for a fault isn't accepted. The function has no code: its contract is the law.
pub fn refused_files_are_not_accepted()
    ensures { RefusedFilesAreNotAccepted }
{}

/// Worked values of the answers on small files. The function has no code: its contract is the values.
pub fn files_are_answered()
    ensures { FilesAreAnswered }
{
    check_file::files_are_answered();
}
