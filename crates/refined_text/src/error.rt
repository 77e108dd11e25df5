//! Why a file isn't read.

ghost use Rattle.std.specs.Prelude.{◌≡◌, Some, option_map};
ghost use Rattle.cert_text.specs.StatedErrors as plain_errors;
ghost use Rattle.potential_text.specs.Refusals as line_errors;
ghost use Rattle.refined_programs.specs.Views.{annotated_of};
ghost use Rattle.section_text.specs.Refusals as section_errors;
ghost use Rattle.refined_text.specs.declared.error.RefinedTextError.TheVariants.{Memory};
ghost use Rattle.refined_text.specs.Kinds.{kind_of_line, kind_of_section, same_kind};
ghost use Rattle.refined_text.specs.Outcomes.{text_refusal};
ghost use Rattle.refined_text.specs.Results.{refusal_in, acceptance_refusal};

use cert_lexer::ProofKind;
use cert_text::ProofTextError;
use potential_text::PotentialTextError;
use refined_programs::Section;
use refinement_check::{AcceptError, SectionFault};
use section_text::SectionTextError;
use std::alloc::AllocError;
use thiserror::Error;

/// Why the section of a file isn't accepted.
#[derive(Clone, Copy, Debug, PartialEq, Eq)]
pub enum SectionRefusal {
    /// The name of a copy is no name, or that of an earlier copy.
    Names,
    /// The section has this first fault.
    Wrong(SectionFault),
}

/// Why no file of the third form was read. Positions count the bytes of the file from 0, and the file's length is the
/// position of its end; greater positions than 2^64-1 count as 2^64-1.
#[derive(Debug, PartialEq, Eq, Drop, Error)]
pub enum RefinedTextError {
    /// The text of a part is refused at this position.
    #[error("refused at {at}")]
    Refused {
        kind: ProofKind,
        at: u64,
    },
    /// This section isn't accepted.
    #[error("no refinement")]
    Section {
        section: Section,
        refusal: SectionRefusal,
    },
    /// Memory ran out.
    #[error("out of memory")]
    Memory,
}

impl From<AllocError> for RefinedTextError {
    ghost from_gives = { λ _ e. e ≡ Memory };

    fn from(_error: AllocError) -> RefinedTextError {
        RefinedTextError::Memory
    }
}

// The error of a refusal at a position of a part, which begins at another position of the file.
fn refused(kind: ProofKind, begins: usize, at: u64) -> RefinedTextError
    ensures { refusal_in result ≡ Some (text_refusal same_kind begins (record { kind = kind; at = at })) }
{
    RefinedTextError::Refused {
        kind,
        at: (begins as u64).saturating_add(at),
    }
}

/// The error of the refusal of a section's text, which begins at this position of the file.
pub(crate) fn of_section(error: SectionTextError, begins: usize) -> RefinedTextError
    ensures { refusal_in result
        ≡ option_map (text_refusal kind_of_section begins) (section_errors.refusal_in error) }
{
    match error {
        SectionTextError::Syntax { at } => refused(ProofKind::Syntax, begins, at),
        SectionTextError::NumberTooLarge { at } => refused(ProofKind::NumberTooLarge, begins, at),
        SectionTextError::TooDeep { at } => refused(ProofKind::TooDeep, begins, at),
        SectionTextError::BadReference { at } => refused(ProofKind::BadReference, begins, at),
        SectionTextError::Limit { at } => refused(ProofKind::Limit, begins, at),
        SectionTextError::Memory => RefinedTextError::Memory,
    }
}

/// The error of the refusal of a plain part, which begins at this position of the file.
pub(crate) fn of_plain(error: ProofTextError, begins: usize) -> RefinedTextError
    ensures { refusal_in result ≡ option_map (text_refusal same_kind begins) (plain_errors.refusal_in error) }
{
    match error {
        ProofTextError::Syntax { at } => refused(ProofKind::Syntax, begins, at),
        ProofTextError::NumberTooLarge { at } => refused(ProofKind::NumberTooLarge, begins, at),
        ProofTextError::TooDeep { at } => refused(ProofKind::TooDeep, begins, at),
        ProofTextError::BadReference { at } => refused(ProofKind::BadReference, begins, at),
        ProofTextError::Limit { at } => refused(ProofKind::Limit, begins, at),
        ProofTextError::Memory => RefinedTextError::Memory,
    }
}

/// The error of the refusal of lines of lemmas or claims, which begin at this position of the file.
pub(crate) fn of_lines(error: PotentialTextError, begins: usize) -> RefinedTextError
    ensures { refusal_in result ≡ option_map (text_refusal kind_of_line begins) (line_errors.refusal_in error) }
{
    match error {
        PotentialTextError::Syntax { at } => refused(ProofKind::Syntax, begins, at),
        PotentialTextError::NumberTooLarge { at } => refused(ProofKind::NumberTooLarge, begins, at),
        PotentialTextError::TooDeep { at } => refused(ProofKind::TooDeep, begins, at),
        PotentialTextError::BadReference { at } => refused(ProofKind::BadReference, begins, at),
        PotentialTextError::Limit { at } => refused(ProofKind::Limit, begins, at),
        PotentialTextError::Memory => RefinedTextError::Memory,
    }
}

/// The error where a section isn't accepted.
pub(crate) fn of_acceptance(error: AcceptError, section: Section) -> RefinedTextError
    ensures { refusal_in result ≡ acceptance_refusal (annotated_of section) error }
{
    match error {
        AcceptError::Wrong(fault) => RefinedTextError::Section {
            section,
            refusal: SectionRefusal::Wrong(fault),
        },
        AcceptError::Memory => RefinedTextError::Memory,
    }
}
