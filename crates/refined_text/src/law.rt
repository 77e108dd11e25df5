//! The laws of reading files, and worked values. The functions here have no code: the contract of each is a law, which
//! the laws that it calls prove, or values that were worked out by hand.

ghost use Rattle.refined_text.specs.Laws.{RefinedTextsAreDecided, SectionsReadAreAccepted, FilesReadAreWithinLimits};
ghost use Rattle.refined_text.specs.Worked.{OutcomesAreWorkedOut};

use cert_text::files_are_their_texts;
use proof_parts::parts_are_unique;
use section_checks::{accepted_sections_spell_valid, first_faults_are_unique};

/// Bytes are read as one file at most, or are refused for one reason, and not both.
pub fn refined_texts_are_decided()
    ensures { RefinedTextsAreDecided }
{
    parts_are_unique();
    first_faults_are_unique();
}

/// The section of a file that is read is accepted, so over a valid program the one that it spells is valid.
pub fn sections_read_are_accepted()
    ensures { SectionsReadAreAccepted }
{
    accepted_sections_spell_valid();
}

/// The plain part of a file that is read is the text of its plain file over the spelled program, and that file is
/// within the limits.
pub fn files_read_are_within_limits()
    ensures { FilesReadAreWithinLimits }
{
    parts_are_unique();
    accepted_sections_spell_valid();
    files_are_their_texts();
}

/// The outcomes of small files.
pub fn worked_outcomes_hold()
    ensures { OutcomesAreWorkedOut }
{}
