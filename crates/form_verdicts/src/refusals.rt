//! The texts of refusals of files of the third form.

ghost use Rattle.std.specs.Prelude.{◌≡◌, Some, IfOk};
ghost use Rattle.its_model.specs.Views.{program_of};
ghost use Rattle.refined_programs.specs.Views.{annotated_of};
ghost use Rattle.refinement_check.specs.Views as sections;
ghost use Rattle.cert_types.specs.AnswerViews.{fault_of};
ghost use Rattle.check_text.specs.Texts.{refused_gap_text};
ghost use Rattle.refined_files.specs.Files.{program_above};
ghost use Rattle.refined_types.specs.Views.{file_view, section_view};
ghost use Rattle.refined_text.specs.Results.{section_refusal};
ghost use Rattle.form_verdicts.specs.Texts as texts;
ghost use Rattle.form_verdicts.specs.Texts.{StatesRefusal};

use cert_types::GapFault;
use check_refined::FileRefusal;
use check_text::{gap_text, node_text};
use claims_text::{claim_text, lemma_text, names_text, section_text};
use its_model::Program;
use model::Memory;
use refined_programs::{Section, spell};
use refined_text::SectionRefusal;
use refined_types::RefinedFile;
use refinement_check::SectionFault;
use std::alloc::{AllocError, Global};

/// Why a section isn't accepted: its names, or its first fault.
///
/// # Errors
///
/// `Memory` where an allocation fails.
pub(crate) fn section_refusal_text(
    alloc: Global,
    section: &Section,
    refusal: SectionRefusal,
) -> Result<Vec<u8>, Memory>
    ensures { IfOk result (λ text.
        text.items ≡ texts.section_refusal_text (annotated_of section.now) (section_refusal refusal)) }
{
    match refusal {
        SectionRefusal::Names => names_text(alloc),
        SectionRefusal::Wrong(fault) => section_text(alloc, section, fault),
    }
}

/// The first part of a file that isn't accepted, and why.
///
/// # Errors
///
/// `Memory` where an allocation fails, and where the file wasn't checked because memory ran out.
pub(crate) fn refusal_text(
    alloc: Global,
    program: &Program,
    file: &RefinedFile,
    refusal: FileRefusal,
) -> Result<Vec<u8>, Memory>
    ensures { IfOk result (λ text.
        StatesRefusal (program_of program.now) (file_view file.now) refusal text.items) }
{
    match refusal {
        FileRefusal::Names => names_text(alloc),
        FileRefusal::Section(fault) => fault_text(alloc, &file.section, fault),
        FileRefusal::Node {
            lemma,
            node,
            reason,
        } => node_text(alloc, lemma, node, &reason),
        FileRefusal::Gap { gap, fault } => gap_refusal_text(
            alloc,
            program,
            &file.section,
            gap,
            fault,
        ),
        FileRefusal::Lemma(refused) => lemma_text(alloc, refused.number, refused.reason),
        FileRefusal::Claim(refused) => claim_text(alloc, refused.claim, refused.reason),
        FileRefusal::Memory => Err(AllocError),
    }
}

// The first fault of the section of a file; nothing where there is no section.
fn fault_text(
    alloc: Global,
    section: &Option<Section>,
    fault: SectionFault,
) -> Result<Vec<u8>, Memory>
    ensures { IfOk result (λ text.
        text.items ≡ texts.fault_text_in (section_view section.now) (sections.fault_of fault)) }
{
    match section {
        Some(section) => section_text(alloc, section, fault),
        None => Ok(Vec::new(alloc)),
    }
}

// The first gap that doesn't hold, with the names of the symbols of the program that the section spells, or of the
// program itself where there is no section.
fn gap_refusal_text(
    alloc: Global,
    program: &Program,
    section: &Option<Section>,
    gap: u32,
    fault: GapFault,
) -> Result<Vec<u8>, Memory>
    ensures { IfOk result (λ text. text.items
        ≡ refused_gap_text (program_above (program_of program.now) (section_view section.now)) gap (fault_of fault)) }
{
    match section {
        Some(section) => gap_text_with_copies(alloc, program, section, gap, fault),
        None => gap_text(alloc, program, gap, &fault),
    }
}

// The first gap that doesn't hold, with the names of copies.
fn gap_text_with_copies(
    alloc: Global,
    program: &Program,
    section: &Section,
    gap: u32,
    fault: GapFault,
) -> Result<Vec<u8>, Memory>
    ensures { IfOk result (λ text. text.items
        ≡ refused_gap_text (program_above (program_of program.now) (Some (annotated_of section.now))) gap (fault_of fault)) }
{
    let above = spell(alloc, program, section)?;
    gap_text(alloc, &above, gap, &fault)
}
