//! Reads the section of a file, and accepts it.

ghost use Rattle.std.specs.Prelude.{◌≡◌, ◌≢◌, [], Some};
ghost use Rattle.its_model.specs.Valid.{IsValid};
ghost use Rattle.its_model.specs.Views.{program_of};
ghost use Rattle.refined_programs.specs.Views.{annotated_of};
ghost use Rattle.refined_text.specs.Parts.{section_at, SectionReads, Accepts};
ghost use Rattle.refined_text.specs.Results.{Says};

use crate::error::{RefinedTextError, SectionRefusal, of_acceptance, of_section};
use its_model::Program;
use proof_parts::Part;
use refined_programs::Section;
use refinement_check::{accept, has_distinct_names};
use section_text::read_section;
use std::alloc::Global;

/// The section that the part of a file spells, which isn't empty, if the section is accepted for the program.
///
/// # Errors
///
/// `Refused` with the first refusal of the part's text; `Section` where the section isn't accepted; `Memory` where an
/// allocation fails.
pub(crate) fn accepted_section(
    alloc: Global,
    program: &Program,
    part: &Part<'_>,
) -> Result<Section, RefinedTextError>
    requires valid { IsValid (program_of program.now) }
    requires some { part.now.text.now ≢ [] }
    requires begins { part.now.at ≡ section_at }
    ensures { Says (λ section. Some (annotated_of section))
        (SectionReads (program_of program.now) part.now.text.now) result }
{
    match read_section(alloc, program, part.text) {
        Ok(section) => accepted(alloc, program, section),
        Err(error) => Err(of_section(error, part.at)),
    }
}

// The section, if it is accepted for the program.
fn accepted(alloc: Global, program: &Program, section: Section) -> Result<Section, RefinedTextError>
    requires { IsValid (program_of program.now) }
    ensures { Says (λ accepted. Some (annotated_of accepted))
        (Accepts (program_of program.now) (annotated_of section)) result }
{
    let named = has_distinct_names(alloc, &section)?;
    if !named {
        return Err(RefinedTextError::Section {
            section,
            refusal: SectionRefusal::Names,
        });
    }
    match accept(alloc, program, &section) {
        Ok(()) => Ok(section),
        Err(error) => Err(of_acceptance(error, section)),
    }
}
