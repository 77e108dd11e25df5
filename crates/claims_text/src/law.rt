//! Worked values of the texts of answers.

ghost use Rattle.claims_text.specs.Worked.{AnswersAreWorkedOut};

/// The texts of small answers, as they were worked out by hand. Its contract is these values; it has no code.
pub fn worked_answers_hold()
    ensures { AnswersAreWorkedOut }
{}
