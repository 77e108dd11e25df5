//! Worked values.

ghost use Rattle.best_report.specs.Worked.{SubjectsAreWorkedOut, BoundsAreFound, ChoicesAreWorkedOut};
ghost use Rattle.best_report.specs.Worked.{StatementsAreFound, StatedBoundsAreUsed, SumsAreWorkedOut, ReportsAreWorkedOut};
ghost use Rattle.best_report.specs.Worked.{TextsAreWorkedOut};

/// Worked values of the subjects of a program, of the bounds of an analysis and of statements on a subject, of the choice
/// between two bounds, of sums of what the rules spend, of whole reports, and of the text of a report. The function has no
/// code of its own: its contract is these values.
pub fn worked_texts_hold()
    ensures subjects { SubjectsAreWorkedOut }
    ensures found { BoundsAreFound }
    ensures choices { ChoicesAreWorkedOut }
    ensures statements { StatementsAreFound }
    ensures used { StatedBoundsAreUsed }
    ensures sums { SumsAreWorkedOut }
    ensures reports { ReportsAreWorkedOut }
    ensures texts { TextsAreWorkedOut }
{
    program_claims::meanings_are_worked_out();
}
