//! Laws of the answers on ranking functions. No function here has code: the contract of each is a law.

ghost use Rattle.rank_search.specs.OneAnswer.{RankAnswersAreOne};
ghost use Rattle.rank_search.specs.RankLaws.{RankedNodesRank, RankedNodesAreAccepted, RankAnswersAreExact};
ghost use Rattle.rank_search.specs.RankLaws.{FoundGapsHold};

/// A node that is read off a solution of a rank question's linear program has a function that ranks the rule on all
/// rational points, with coefficient 0 at every shut place. If each rule of the set has a point, no such function
/// weighs less.
pub fn ranked_nodes_rank()
    ensures { RankedNodesRank }
{}

/// Such a node is accepted once its premises are available: a runtime bound of each entry of its set, and the sizes
/// there of the places with nonzero coefficients, which compose a small bound.
pub fn ranked_nodes_are_accepted()
    ensures { RankedNodesAreAccepted }
{}

/// The set, the rule and the number of pivots determine the answer: its kind, and its node, its gap or its limit hit.
pub fn rank_answers_are_one()
    ensures { RankAnswersAreOne }
{}

/// The answer is `Ranked` exactly if the linear program has a solution and hits no limit. It is `NoRank` exactly if no
/// function ranks the rule and neither the linear program nor a feasibility question of the set hits a limit. It is
/// `OutOfLimits` exactly if the linear program hits a limit, or has no solution and a feasibility question of the set
/// hit one.
pub fn rank_answers_are_exact()
    ensures { RankAnswersAreExact }
{}

/// The gap of an answer `NoRank` has the given set, strict rule and shut places, and it holds: its own numbers show
/// that no function ranks the rule.
pub fn found_gaps_hold()
    ensures { FoundGapsHold }
{}
