//! What evidence is, and worked values of the copies of rules. The functions here have no code: the contract of each is
//! the law.

ghost use Rattle.claims_check.specs.Laws.{EvidenceIsBySections, CopiesAreListed};

/// Evidence by a section is that of the program that it spells, and without a section that of the program itself.
pub fn evidence_is_by_sections()
    ensures { EvidenceIsBySections }
{}

/// Worked values of the rules that have a rule below them.
pub fn copies_are_listed()
    ensures { CopiesAreListed }
{}
