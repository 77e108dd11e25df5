//! A section of a program with certificates, multipliers over the rows of guards, spells a program that simulates it.
//! The functions here have no code: the contract of each is a law, or values that were worked out by hand.
#![tactic(auto)]

ghost use Rattle.refinement_rows.specs.Laws.{CertifiedSectionsKeepBounds};
ghost use Rattle.refinement_rows.specs.Worked.{GuardsAreRefuted, SectionsAreCertified};

/// If multipliers show that -1 follows from the rows of each guard that has to be unsatisfiable, the section is shown:
/// the program that it spells has the runs of the program, so its bounds carry over, and the facts of copies hold at
/// their symbols.
pub fn certified_sections_keep_bounds()
    ensures { CertifiedSectionsKeepBounds }
{}

/// Worked values: multipliers refute some guards of a loop, and not others; and a section of its program is certified,
/// while one with a stronger fact isn't.
pub fn certificates_are_as_worked_out()
    ensures guards { GuardsAreRefuted }
    ensures sections { SectionsAreCertified }
{}
