//! The checks of a section of a program with certificates, stage by stage, and the first fault. If all checks pass over
//! a valid program, the section is certified and spells a valid program. The functions here have no code: the contract
//! of each is the law.
#![tactic(auto)]

ghost use Rattle.section_checks.specs.Laws.{AcceptedSectionsAreCertified, AcceptedSectionsSpellValid};
ghost use Rattle.section_checks.specs.Laws.{FirstFaultsAreUnique};

/// Over a valid program an accepted section is certified: the program that it spells has the runs of the program, its
/// bounds carry over, and the facts of copies hold at their symbols.
pub fn accepted_sections_are_certified()
    ensures { AcceptedSectionsAreCertified }
{}

/// Over a valid program an accepted section whose copies have different names spells a valid program.
pub fn accepted_sections_spell_valid()
    ensures { AcceptedSectionsSpellValid }
{}

/// At most one fault is the first, and if there is one the section isn't accepted.
pub fn first_faults_are_unique()
    ensures { FirstFaultsAreUnique }
{}
