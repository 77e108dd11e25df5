//! The section of a file, and the program that it spells.

ghost use Rattle.std.specs.Prelude.{MatchResult};
ghost use Rattle.its_model.specs.Valid.{IsValid};
ghost use Rattle.its_model.specs.Views.{program_of};
ghost use Rattle.refined_programs.specs.Views.{annotated_of};
ghost use Rattle.check_refined.specs.Refusals.{IsSpelledBy, RefusesSection};

use crate::refusal::FileRefusal;
use its_model::Program;
use refined_programs::{Section, spell};
use refinement_check::{accept, has_distinct_names};
use std::alloc::Global;

/// The program that an accepted section of a valid program spells. It is valid, too; the lemmas of the section's file
/// are over its rules.
///
/// # Errors
///
/// `Names` where the names of the copies aren't names or aren't all different; else `Section` with the first fault of
/// the section, where it has one; `Memory` where an allocation fails.
pub fn accepted_program(
    alloc: Global,
    p: &Program,
    section: &Section,
) -> Result<Program, FileRefusal>
    requires { IsValid (program_of p.now) }
    ensures { MatchResult result
        (λ spelled_program. IsSpelledBy (program_of p.now) (annotated_of section.now) (program_of spelled_program))
        (λ refusal. RefusesSection (program_of p.now) (annotated_of section.now) refusal) }
{
    let is_named = has_distinct_names(alloc, section)?;
    if !is_named {
        return Err(FileRefusal::Names);
    }
    accept(alloc, p, section)?;
    let spelled_program = spell(alloc, p, section)?;
    Ok(spelled_program)
}
