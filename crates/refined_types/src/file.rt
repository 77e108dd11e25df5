//! Proof files of the third form.

use cert_types::ProofFile;
use claim_types::Claim;
use potential_types::SignedLemma;
use refined_programs::Section;

/// A proof file of the third form.
#[derive(Drop)]
pub struct RefinedFile {
    /// The section, where there is one: the refined program over whose rules the lemmas are.
    pub section: Option<Section>,
    /// The plain part: lemmas over absolute start values, and gaps.
    pub plain: ProofFile,
    /// The lemmas about potentials.
    pub signed: Vec<SignedLemma>,
    /// What is claimed of the program itself.
    pub claims: Vec<Claim>,
}
