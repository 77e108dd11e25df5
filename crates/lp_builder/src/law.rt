//! A law of the problem of a question.

ghost use Rattle.lp_builder.specs.Problems.{HeldQuestionsAreProper};

/// A problem with a question's lines, right sides and costs satisfies the precondition of `solve`, and its linear
/// program agrees with the question's inside its rows and columns.
pub fn held_questions_are_proper()
    ensures { HeldQuestionsAreProper }
{}
