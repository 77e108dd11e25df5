//! Laws of answers to linear programs.

ghost use Rattle.lp_answer.specs.Answers.{LpAnswersAreOne};
ghost use Rattle.lp_answer.specs.Worked.{AnswersAreWorkedOut};

/// A linear program has one answer: one text of its end, or one text of why the end isn't reached. The function has no
/// code: its contract is the law.
pub fn lp_answers_are_one()
    ensures { LpAnswersAreOne }
{}

/// Worked values of the texts of fractions, values, ends and refusals. The function has no code: its contract is the
/// law.
pub fn worked_answers_hold()
    ensures { AnswersAreWorkedOut }
{}
