//! The laws of lasso texts.

ghost use Rattle.lasso_check.specs.Spelled.{OneLasso};
ghost use Rattle.lasso_check.specs.Worked.{LassosAreWorkedOut};

/// Worked values of reading small lasso texts. It has no code: its contract is the law.
pub fn worked_lassos_hold()
    ensures { LassosAreWorkedOut }
{}

/// A text is the text of at most one lasso, whatever the program and the limits, if no number has more than 64 digits,
/// as in every lasso file. It has no code: its contract is the law.
pub fn texts_are_of_one_lasso()
    ensures { OneLasso }
{}
