//! Laws of texts of linear programs.

ghost use Rattle.lp_text.specs.Decided.{TextsAreDecided};
ghost use Rattle.lp_text.specs.Problems.{ProblemsAreMeant};
ghost use Rattle.lp_text.specs.Worked.{TextsAreWorkedOut};

/// A text is that of at most one linear program within the limits, or has at most one first fault, but not both. The
/// function has no code: its contract is the law.
pub fn texts_are_decided()
    ensures { TextsAreDecided }
{}

/// The problem of a linear program within the limits satisfies the precondition of `solve`, and its linear program
/// agrees with the written one. The function has no code: its contract is the law.
pub fn problems_are_meant()
    ensures { ProblemsAreMeant }
{}

/// Worked values of the results of reading small texts, and of the problem of one. The function has no code: its
/// contract is the law.
pub fn worked_texts_hold()
    ensures { TextsAreWorkedOut }
{}
