//! The proof file of an analysis: laws that the checker accepts it.
//!
//! Builds on `time_bounds` (analyses) and `cert_text` (proof files). Main guarantee: the proof file of an analysis of a
//! valid program is accepted by the checker, and is within the limits of proof files, so that its text is read back as
//! that file. The functions here have no code: the contract of each is a law.
#![tactic(auto)]

ghost use Rattle.analysis_certs.specs.ProvedFiles.{ProvedFilesAreAccepted};

/// The law that the proof file of an analysis of a valid program is accepted for the program, that each bound which its
/// lemmas write is over the start arguments alone, and that it is within the limits of proof files: among others its
/// lemmas go at most 64 levels deep, and there are at most 100,000 of them and at most 1,000 gaps. A limit on the bytes
/// of a text isn't among these. The function has no code: its contract is the law.
pub fn proved_files_are_accepted()
    ensures { ProvedFilesAreAccepted }
{}
