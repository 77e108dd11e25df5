//! Laws of the linear program of a rank question: what it proves of functions on configurations.

ghost use Rattle.rule_forms.specs.WorkedRanks.{RankingIsWorkedOut};
ghost use Rattle.rule_forms.specs.RankLaws.{SolutionsRank, DualsExcludeRanks, LeastRanksWeighLeast};

/// A solution of the linear program gives an affine function for each symbol, with coefficient 0 at every shut place,
/// and multipliers of the rules' rows that certify that the function ranks the rule. What such multipliers certify
/// holds on all rational points.
pub fn solutions_rank()
    ensures { SolutionsRank }
{}

/// A dual of the linear program shows that no affine function with coefficient 0 at every shut place ranks the rule,
/// provided that each rule of the set has a rational point.
pub fn duals_exclude_ranks()
    ensures { DualsExcludeRanks }
{}

/// A solution of least cost gives a ranking function of least weight among those with coefficient 0 at every shut
/// place, provided that each rule of the set has a rational point. Weights compare the absolute coefficients at the
/// entered symbols and, if these are equal, the positive parts of the constants there.
pub fn least_ranks_weigh_least()
    ensures { LeastRanksWeighLeast }
{}

/// Worked values, on both sides, of functions that rank a rule, of the places with nonzero coefficients, of their
/// weights, and of sets that no function ranks.
pub fn ranking_is_as_worked_out()
    ensures { RankingIsWorkedOut }
{}
