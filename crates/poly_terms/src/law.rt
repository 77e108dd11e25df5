//! Worked values of expanded forms, first faults and rows.

ghost use Rattle.poly_terms.specs.WorkedForms.{FormsAreWorkedOut};

/// Worked values of expanded forms, first faults, rows and values. The function has no code: its contract is the law.
pub fn forms_are_worked_out()
    ensures { FormsAreWorkedOut }
{}
