//! Why files of the third form aren't accepted.

ghost use Rattle.std.specs.Prelude.{◌≡◌};
ghost use Rattle.check_refined.specs.Refusals.{section_refusal, plain_refusal, lemma_refusal, claim_refusal};
ghost use Rattle.check_refined.specs.declared.refusal.FileRefusal.TheVariants as by;

use cert_types::{GapFault, Reason};
use check_file::CheckError;
use check_potentials::{LemmaFault, Refusal};
use claims_check::{ClaimsError, RefusedClaim};
use refinement_check::{AcceptError, SectionFault};
use std::alloc::{AllocError, AllocFailed};

/// The first part of a file that isn't accepted, and why. Lemmas, nodes, gaps and claims are numbered from 1, and each
/// node comes after its premises.
#[derive(Clone, Copy)]
pub enum FileRefusal {
    /// The names of the section's copies aren't names, or aren't all different.
    Names,
    /// The section has this first fault.
    Section(SectionFault),
    /// The first node of the plain part that isn't accepted, and the first reason.
    Node {
        lemma: u32,
        node: u32,
        reason: Reason,
    },
    /// All lemmas of the plain part are accepted; this is its first gap that doesn't hold, and the gap's first fault.
    Gap {
        gap: u32,
        fault: GapFault,
    },
    /// The first lemma about potentials that isn't accepted, and the first reason.
    Lemma(Refusal),
    /// The first claim that isn't accepted, and the reason.
    Claim(RefusedClaim),
    /// Memory ran out.
    Memory,
}

impl From<AcceptError> for FileRefusal {
    ghost from_gives = { λ error refusal. refusal ≡ section_refusal error };

    fn from(error: AcceptError) -> FileRefusal {
        match error {
            AcceptError::Wrong(fault) => FileRefusal::Section(fault),
            AcceptError::Memory => FileRefusal::Memory,
        }
    }
}

impl From<CheckError> for FileRefusal {
    ghost from_gives = { λ error refusal. refusal ≡ plain_refusal error };

    fn from(error: CheckError) -> FileRefusal {
        match error {
            CheckError::No {
                lemma,
                node,
                reason,
            } => FileRefusal::Node {
                lemma,
                node,
                reason,
            },
            CheckError::NoGap { gap, fault } => FileRefusal::Gap { gap, fault },
            CheckError::Memory => FileRefusal::Memory,
        }
    }
}

impl From<LemmaFault> for FileRefusal {
    ghost from_gives = { λ error refusal. refusal ≡ lemma_refusal error };

    fn from(error: LemmaFault) -> FileRefusal {
        match error {
            LemmaFault::Refused(refusal) => FileRefusal::Lemma(refusal),
            LemmaFault::Memory => FileRefusal::Memory,
        }
    }
}

impl From<ClaimsError> for FileRefusal {
    ghost from_gives = { λ error refusal. refusal ≡ claim_refusal error };

    fn from(error: ClaimsError) -> FileRefusal {
        match error {
            ClaimsError::Refused(refused) => FileRefusal::Claim(refused),
            ClaimsError::Memory => FileRefusal::Memory,
        }
    }
}

impl From<AllocError> for FileRefusal {
    ghost from_gives = { λ _ refusal. refusal ≡ by.Memory };

    fn from(_error: AllocError) -> FileRefusal {
        FileRefusal::Memory
    }
}

impl<T: Drop> From<AllocFailed<T>> for FileRefusal {
    ghost from_gives = { λ _ refusal. refusal ≡ by.Memory };

    fn from(_error: AllocFailed<T>) -> FileRefusal {
        FileRefusal::Memory
    }
}
