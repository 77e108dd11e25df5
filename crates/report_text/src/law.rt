//! Laws of the texts of reports.

ghost use Rattle.report_text.specs.OneReport.{TextsStateOneReport};
ghost use Rattle.report_text.specs.WorkedTexts.{TextsAreWorkedOut};

/// A text states at most one printable report; those of analyses are printable, if their numbers fit their types. The function has no code: its contract is the
/// law.
pub fn texts_state_one_report()
    ensures { TextsStateOneReport }
{}

/// Worked values: the texts of small reports, and what they don't distinguish.
pub fn texts_are_worked_out()
    ensures { TextsAreWorkedOut }
{}
