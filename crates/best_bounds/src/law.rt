//! Worked values.

ghost use Rattle.best_bounds.specs.Worked.{SubjectsAreWorkedOut};

/// Worked values of subjects of statements, of lists that keep subjects, and of the number of bounds on steps. The
/// function has no code: its contract is these values.
pub fn subjects_are_worked_out()
    ensures { SubjectsAreWorkedOut }
{}
