//! Laws of the answers of `guard_feasibility`. No function here has code: the contract of each is a law.

ghost use Rattle.rule_questions.specs.EmptyAnswers.{EmptyAnswersAreExact, EmptyNodesAreAccepted};
ghost use Rattle.rule_questions.specs.OneEmptyAnswer.{EmptyAnswersAreOne};

/// The answer is `Empty` exactly if the rows of the rule are infeasible, and `Point` exactly if they are feasible,
/// provided that the linear program hits no limit; it is `OutOfLimits` exactly if the linear program hits one.
pub fn empty_answers_are_exact()
    ensures { EmptyAnswersAreExact }
{}

/// The rule and the number of pivots determine the answer: its kind, and its multipliers, its point or its limit hit.
pub fn empty_answers_are_one()
    ensures { EmptyAnswersAreOne }
{}

/// If the rows of a rule have no point, the node of the rule is accepted, whatever else is known.
pub fn empty_nodes_are_accepted()
    ensures { EmptyNodesAreAccepted }
{}
