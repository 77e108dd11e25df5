//! The meaning of the text of a proof file: a file of one of the forms, or a section that isn't accepted.

use cert_types::ProofFile;
use refined_programs::Section;
use refined_text::SectionRefusal;
use refined_types::RefinedFile;

/// The meaning of the text of a proof file.
#[derive(Drop)]
pub enum ProofText {
    /// A file of the first or the second form.
    Plain(ProofFile),
    /// A file of the third form, whose section is accepted where it has one.
    Refined(RefinedFile),
    /// A file of the third form with this section, which isn't accepted; what is after it isn't read.
    NotRefined {
        section: Section,
        refusal: SectionRefusal,
    },
}
