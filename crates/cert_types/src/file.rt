//! Proof files.

use crate::gap::Gap;
use crate::proof::Proof;

/// A proof file: lemmas, each of which may cite those before it, and gaps.
#[derive(Debug, PartialEq, Eq, Drop)]
pub struct ProofFile {
    pub lemmas: Vec<Proof>,
    pub gaps: Vec<Gap>,
}
