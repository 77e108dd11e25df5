//! The law of sections and strengthened programs.

ghost use Rattle.facts_certs.specs.Refined.{SectionsRefineStrengthened};

/// The program that a right section of a valid program spells refines the program that facts strengthen: it has just
/// its runs, through copies of its rules, and its bounds carry over. The function has no code: its contract is the law.
pub fn sections_refine_strengthened()
    ensures { SectionsRefineStrengthened }
{}
