//! Reads the parts of a file one after the other.

ghost use Rattle.std.specs.Prelude.{ℕ, map};
ghost use Rattle.its_model.specs.Valid.{IsValid};
ghost use Rattle.its_model.specs.Views.{program_of};
ghost use Rattle.cert_types.specs.AnswerViews.{file_of};
ghost use Rattle.potential_types.specs.Views.{lemma_of};
ghost use Rattle.claim_types.specs.Views.{claims_of as plain_claims};
ghost use Rattle.proof_parts.specs.Views.{parts_of, ArePlaced};
ghost use Rattle.refined_files.specs.Files.{program_above, IsSectionAccepted};
ghost use Rattle.refined_programs.specs.Views.{annotated_of};
ghost use Rattle.refined_types.specs.Views.{file_view, section_view};
ghost use Rattle.refined_text.specs.Outcomes.{TextReads};
ghost use Rattle.refined_text.specs.Parts.{plain_text, lemma_text, claim_text};
ghost use Rattle.refined_text.specs.Files.{FileReads, PartsRead, LinesRead};
ghost use Rattle.refined_text.specs.Results.{Says};

use crate::error::{RefinedTextError, of_lines, of_plain};
use crate::section::accepted_section;
use cert_lexer::ProofKind;
use cert_text::read;
use cert_types::ProofFile;
use claim_types::Claim;
use its_model::Program;
use potential_text::{read_claims, read_signed};
use potential_types::SignedLemma;
use proof_parts::{Parts, cut};
use refined_programs::{Section, spell};
use refined_types::RefinedFile;
use refinement_check::accepted_sections_keep_bounds;
use std::alloc::Global;

/// Reads a text as a proof file of the third form of a program, as `docs/proof-format.md` defines it: its section,
/// which has to be accepted where there is one; then its plain part and its lemmas about potentials, over the program
/// that the section spells, or over the program itself where there is no section; and then its claims.
///
/// # Errors
///
/// The refusal of the first part that is refused. `Refused` has `Syntax` and the first byte at which the first line
/// differs, or the kind and the position of the first refusal of a part's text, which are those of the part's reader.
/// `Section` is returned if the section isn't accepted, after refusals of its text and before those of later parts;
/// `Memory` if an allocation fails.
pub fn read_refined(
    alloc: Global,
    program: &Program,
    bytes: &[u8],
) -> Result<RefinedFile, RefinedTextError>
    requires { IsValid (program_of program.now) }
    ensures { Says file_view (FileReads (program_of program.now) bytes.now) result }
{
    match cut(bytes) {
        Ok(parts) => read_parts(alloc, program, &parts),
        Err(at) => Err(RefinedTextError::Refused {
            kind: ProofKind::Syntax,
            at: at as u64,
        }),
    }
}

// The file with these parts.
fn read_parts(
    alloc: Global,
    program: &Program,
    parts: &Parts<'_>,
) -> Result<RefinedFile, RefinedTextError>
    requires valid { IsValid (program_of program.now) }
    requires placed { (size : ℕ) × ArePlaced size parts.now }
    ensures { Says file_view (PartsRead (program_of program.now) (parts_of parts.now)) result }
{
    if parts.section.text.is_empty() {
        return read_lines(alloc, program, None, parts);
    }
    match accepted_section(alloc, program, &parts.section) {
        Ok(section) => read_with_section(alloc, program, section, parts),
        Err(error) => Err(error),
    }
}

// The file with these parts and a section that is accepted: its lemmas are over the program that the section spells.
fn read_with_section(
    alloc: Global,
    program: &Program,
    section: Section,
    parts: &Parts<'_>,
) -> Result<RefinedFile, RefinedTextError>
    requires valid { IsValid (program_of program.now) }
    requires accepted { IsSectionAccepted (program_of program.now) (Some (annotated_of section)) }
    requires placed { (size : ℕ) × ArePlaced size parts.now }
    ensures { Says file_view (LinesRead (program_above (program_of program.now) (Some (annotated_of section)))
        (parts_of parts.now) (Some (annotated_of section))) result }
{
    // The law that the spelled program is valid.
    accepted_sections_keep_bounds();
    let spelled_program = spell(alloc, program, &section)?;
    read_lines(alloc, &spelled_program, Some(section), parts)
}

// The file with this section and these parts, where its lemmas are over this program.
fn read_lines(
    alloc: Global,
    spelled_program: &Program,
    section: Option<Section>,
    parts: &Parts<'_>,
) -> Result<RefinedFile, RefinedTextError>
    requires valid { IsValid (program_of spelled_program.now) }
    requires placed { (size : ℕ) × ArePlaced size parts.now }
    ensures { Says file_view (LinesRead (program_of spelled_program.now) (parts_of parts.now) (section_view section))
        result }
{
    let plain = plain_of(alloc, spelled_program, parts)?;
    let signed = lemmas_of(alloc, spelled_program, parts)?;
    let claims = claims_of(alloc, parts)?;
    Ok(RefinedFile {
        section,
        plain,
        signed,
        claims,
    })
}

// The plain part, over this program.
fn plain_of(
    alloc: Global,
    spelled_program: &Program,
    parts: &Parts<'_>,
) -> Result<ProofFile, RefinedTextError>
    requires valid { IsValid (program_of spelled_program.now) }
    requires placed { (size : ℕ) × ArePlaced size parts.now }
    ensures { Says file_of (TextReads (plain_text (program_of spelled_program.now) (parts_of parts.now))) result }
{
    match read(alloc, spelled_program, parts.plain.text) {
        Ok(plain) => Ok(plain),
        Err(error) => Err(of_plain(error, parts.plain.at)),
    }
}

// The lemmas about potentials, over this program.
fn lemmas_of(
    alloc: Global,
    spelled_program: &Program,
    parts: &Parts<'_>,
) -> Result<Vec<SignedLemma>, RefinedTextError>
    requires valid { IsValid (program_of spelled_program.now) }
    requires placed { (size : ℕ) × ArePlaced size parts.now }
    ensures { Says (λ lemmas. map lemma_of lemmas.items)
        (TextReads (lemma_text (program_of spelled_program.now) (parts_of parts.now))) result }
{
    match read_signed(alloc, spelled_program, parts.signed.text) {
        Ok(lemmas) => Ok(lemmas),
        Err(error) => Err(of_lines(error, parts.signed.at)),
    }
}

// The claims.
fn claims_of(alloc: Global, parts: &Parts<'_>) -> Result<Vec<Claim>, RefinedTextError>
    requires { (size : ℕ) × ArePlaced size parts.now }
    ensures { Says (λ claims. plain_claims claims.items) (TextReads (claim_text (parts_of parts.now))) result }
{
    match read_claims(alloc, parts.claims.text) {
        Ok(claims) => Ok(claims),
        Err(error) => Err(of_lines(error, parts.claims.at)),
    }
}
