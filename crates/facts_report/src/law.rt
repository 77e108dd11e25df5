//! A program has one report with facts, and worked values of the texts of facts.

ghost use Rattle.facts_report.specs.WithFacts.{ReportsWithFactsAreOne};
ghost use Rattle.facts_report.specs.WorkedFactTexts.{FactTextsAreWorkedOut};

/// The law that within a number of pivots a program has at most one list of kept facts, and one report with them. The
/// function has no code: its contract is the law.
pub fn reports_with_facts_are_one()
    ensures { ReportsWithFactsAreOne }
{}

/// Worked values of the texts of facts. The function has no code: its contract is these values.
pub fn fact_texts_are_worked_out()
    ensures { FactTextsAreWorkedOut }
{}
