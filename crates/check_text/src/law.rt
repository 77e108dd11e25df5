//! Worked values of the texts of verdicts.

ghost use Rattle.check_text.specs.WorkedTexts.{AnswersAreWorkedOut};

/// Worked values of the texts of facts, of reasons, of faults and of refusals. The function has no code: its contract
/// is these values.
pub fn worked_texts_hold()
    ensures { AnswersAreWorkedOut }
{}
