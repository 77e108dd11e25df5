//! Values that were worked out by hand.

ghost use Rattle.facts_proof.specs.Worked.{StatementsAreWorkedOut};

/// Worked values of the statements of reports. The function has no code: its contract is these values.
pub fn statements_are_worked_out()
    ensures { StatementsAreWorkedOut }
{}
