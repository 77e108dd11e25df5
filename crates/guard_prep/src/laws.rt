//! Laws of rows, on which the soundness of certificates rests. No function here has code: the contract of each is a
//! law.

ghost use Rattle.guard_prep.specs.Laws.{ValidRulesArePreparable, TighteningKeepsWholeSolutions, GuardsGivePoints};
ghost use Rattle.guard_prep.specs.Laws.{RowsAreTheLinearPart};
ghost use Rattle.guard_prep.specs.Laws.{StepsArePoints, CostsArePoints, RowsAreSmall, RowsSuitCertificates};
ghost use Rattle.guard_prep.specs.WorkedRows.{RowsAreWorkedOut};
ghost use Rattle.guard_prep.specs.WorkedPoints.{PointsAreWorkedOut};

/// The rules of a valid program have rows.
pub fn valid_rules_are_preparable()
    ensures { ValidRulesArePreparable }
{}

/// A tightened row has the same integer solutions.
pub fn tightening_keeps_whole_solutions()
    ensures { TighteningKeepsWholeSolutions }
{}

/// If the guard holds, the values of the variables and of the nonlinear updates are a point with denominator 1, and the
/// new values there are the values of the updates.
pub fn guards_give_points()
    ensures { GuardsGivePoints }
{}

/// At integers, the rows of a rule hold exactly if those atoms of its guard hold whose difference has degree at most 1.
pub fn rows_are_the_linear_part()
    ensures { RowsAreTheLinearPart }
{}

/// Each step of a valid program is a point of its rule's rows.
pub fn steps_are_points()
    ensures { StepsArePoints }
{}

/// Each step by the cost rule of a rule of a valid program is a point of the cost rule's rows: if the rule's guard
/// holds and its cost isn't negative, the rows have a point with the cost as the new value.
pub fn costs_are_points()
    ensures { CostsArePoints }
{}

/// Rows and new values have a coefficient for each unknown, and their numbers are at most 2^63-1 in absolute value.
pub fn rows_are_small()
    ensures { RowsAreSmall }
{}

/// The rows of a rule satisfy the preconditions of `farkas_cert::implies`, `empty` and `on_rows`.
pub fn rows_suit_certificates()
    ensures { RowsSuitCertificates }
{}

/// Worked values of rows, new values and nonlinear places.
pub fn rows_are_as_worked_out()
    ensures { RowsAreWorkedOut }
{}

/// Worked values, on both sides, of which rules have rows, and which points are those of steps.
pub fn points_are_as_worked_out()
    ensures { PointsAreWorkedOut }
{}
