//! Values that were worked out by hand.

ghost use Rattle.facts_section.specs.Worked.{FactsAreWorkedOut};

/// Facts as expressions, where they are met, which facts of a symbol are needed, and the branches of their section, as
/// worked out by hand. The function has no code: its contract is the law.
pub fn facts_are_worked_out()
    ensures { FactsAreWorkedOut }
{}
