//! Laws for callers: what a dual, prices and an answer of `solve` prove of all solutions.

ghost use Rattle.simplex_core.specs.Laws.{ArtificialSumsAreWorkedOut, DualExcludesSolutions, LeastCostsLeast};
ghost use Rattle.simplex_core.specs.Laws.{OutcomeDecidesSolutions};
ghost use Rattle.simplex_core.specs.Agreement.{AnswersAreOne, AgreeingProgramsAnswerTheSame};
ghost use Rattle.simplex_core.specs.HitsLimit.{WholeAnswersAreOne};

/// A linear program has no solution if it has a dual, which gives each column at most 0 and the right sides more than
/// 0. This is the easy half of Farkas' lemma.
pub fn dual_excludes_solutions()
    ensures { DualExcludesSolutions }
{}

/// A point of least cost, as its prices show, costs at most what any solution costs, by the first costs and, if these
/// are equal, by the second costs. This is weak duality.
pub fn least_costs_least()
    ensures { LeastCostsLeast }
{}

/// An answer `Optimal` means that there is a solution, and an answer `Infeasible` that there is none. So each of the
/// two is given only if it is true.
pub fn outcome_decides_solutions()
    ensures { OutcomeDecidesSolutions }
{}

/// At each tableau of the sequence, the test for infeasibility looks for a row that is solved for an artificial unknown
/// with a right side above 0. It succeeds exactly if the artificial unknowns of the basic solution add up to more than
/// 0.
pub fn artificial_sums_hold()
    ensures { ArtificialSumsAreWorkedOut }
{}

/// `solve` has one answer for a linear program and a number of pivots, unless memory runs out.
pub fn answers_are_one()
    ensures { AnswersAreOne }
{}

/// Linear programs that agree inside their rows and columns have the same answers, also in integers, and exceed the
/// same limits. That they have the same solutions, points of least cost and duals is
/// `linear_forms::agreeing_programs_are_the_same`.
pub fn agreeing_programs_answer_the_same()
    ensures { AgreeingProgramsAnswerTheSame }
{}

/// `solve_scaled` has one answer for a linear program and a number of pivots, unless memory runs out: one limit that is
/// exceeded, or one solution, or one dual.
pub fn whole_answers_are_one()
    ensures { WholeAnswersAreOne }
{}
