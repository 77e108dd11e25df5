//! Proof files of the third form as plain data, and when one is accepted for a program: a section, or none; a plain
//! part and lemmas about potentials over the program that it spells; and claims on the program itself.
//!
//! Builds on `section_checks`, `cert_program`, `potential_ground` and `program_claims`. Main guarantee: where a file is
//! accepted for a valid program, what its claims state holds on all runs of the program itself, whoever made the file
//! (`accepted_refined_files_hold`). The functions here have no code: the contract of each is the law.
#![tactic(auto)]

ghost use Rattle.refined_files.specs.Laws.{AcceptedRefinedFilesHold};
ghost use Rattle.refined_files.specs.Worked.{SmallFilesAreJudged};

/// Where a file is accepted for a valid program, each of its claims is, and what they state holds on all runs of the
/// program itself, from any integers and by any choice of rules; and the facts of its lemmas hold on all runs of the
/// program that the section spells.
pub fn accepted_refined_files_hold()
    ensures { AcceptedRefinedFilesHold }
{
    section_checks::accepted_sections_are_certified();
    section_checks::accepted_sections_spell_valid();
    cert_program::accepted_files_hold();
    potential_ground::accepted_potentials_hold();
    program_claims::accepted_claims_hold();
    program_claims::own_claims_hold();
    program_claims::refused_claims_are_first();
}

/// Small files that are accepted, or aren't.
pub fn small_files_are_judged()
    ensures { SmallFilesAreJudged }
{}
