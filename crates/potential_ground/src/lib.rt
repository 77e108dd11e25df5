//! The prepared rows of a program's rules, and rows of squares, as the rows over which lemmas about potentials are
//! checked. The functions here have no code: the contract of each is a law, or values that were worked out by hand.
#![tactic(auto)]

ghost use Rattle.potential_ground.specs.RowTerms.{RowsAreTrueGround};
ghost use Rattle.potential_ground.specs.Worked.{GroundsAreWorkedOut};
ghost use Rattle.potential_ground.specs.Whole.{AcceptedPotentialsHold};
ghost use Rattle.potential_ground.specs.WorkedCounters.{ThreeCountersAreBounded};
ghost use Rattle.potential_ground.specs.WorkedLexicographic.{LexicographicLoopsAreBounded};
ghost use Rattle.potential_ground.specs.WorkedSides.{TwoSidesAreBounded};
ghost use Rattle.potential_ground.specs.WorkedPhases.{PhaseChangesAreBounded};
ghost use Rattle.potential_ground.specs.WorkedTriangle.{TrianglesAreBounded};
ghost use Rattle.potential_ground.specs.WorkedSquares.{SquareRowsAreWorkedOut, SquaringLoopsAreBounded};

/// A row as an expression has the row's value, and the rows of a valid program are true of each step of each run.
pub fn rows_are_true_ground()
    ensures { RowsAreTrueGround }
{
    guard_prep::steps_are_points();
}

/// Worked values of rows and new values as expressions.
pub fn grounds_are_as_worked_out()
    ensures { GroundsAreWorkedOut }
{}

/// For a valid program and facts that hold of it: if no lemma after these facts is refused over the program's prepared
/// rows, the facts of all lemmas hold on all its runs.
pub fn accepted_potentials_hold()
    ensures { AcceptedPotentialsHold }
{
    rows_are_true_ground();
    signed_bounds::squares_are_safe();
    potential_nodes::plain_facts_hold();
    potential_nodes::accepted_lemmas_hold();
}

/// Worked values: five programs with lemmas that bound how often their rules occur, over their own prepared rows. The
/// lists of lemmas are accepted, and their last lemma states the total; each list with one number changed is refused at
/// the lemma that the change breaks, for the stated reason.
pub fn lemmas_are_as_worked_out()
    ensures counters { ThreeCountersAreBounded }
    ensures lexicographic { LexicographicLoopsAreBounded }
    ensures sides { TwoSidesAreBounded }
    ensures phases { PhaseChangesAreBounded }
    ensures triangles { TrianglesAreBounded }
{}

/// Worked values of rows of squares, and a loop that squares a variable and that they bound; a list of lemmas on it with
/// another row in a certificate is refused.
pub fn squares_are_as_worked_out()
    ensures rows { SquareRowsAreWorkedOut }
    ensures loops { SquaringLoopsAreBounded }
{}
