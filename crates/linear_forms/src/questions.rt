//! What a question's linear program proves of the question.

ghost use Rattle.linear_forms.specs.QuestionLaws.{SolutionsSolve, DualsRefute, RefutedHasNone, PricesBoundWeights};
ghost use Rattle.linear_forms.specs.QuestionLaws.{LeastWeighsLeast};
ghost use Rattle.linear_forms.specs.QuestionValues.{QuestionValues};
ghost use Rattle.linear_forms.specs.RuleQuestionLaws.{RuleQuestionsAreShaped};

/// A solution of a question's linear program gives parameters, and for each group multipliers that certify that its
/// goal at these parameters follows from its rows.
pub fn solutions_solve()
    ensures { SolutionsSolve }
{}

/// A dual of a question's linear program splits into one part for each group, which is a point or a ray of the group's
/// rows. At these parts, the values of each parameter's goal forms add up to 0, and those of the fixed forms to less
/// than 0.
pub fn duals_refute()
    ensures { DualsRefute }
{}

/// If points and rays refute a question, and each group has a point, no parameters make every goal at least 0 on all
/// points of its group: a group's point can be moved along a ray any number of times.
pub fn refuted_has_none()
    ensures { RefutedHasNone }
{}

/// Prices of a solution, by any costs of the parameters' columns, bound the weight of all parameters that make every
/// goal at least 0 on all points of its group. The solution's own parameters weigh at most what the solution costs.
pub fn prices_bound_weights()
    ensures { PricesBoundWeights }
{}

/// The parameters of a solution of least cost weigh at most what any others weigh that make every goal at least 0 on
/// all points of its group. Weights are compared by the sizes and, if these are equal, by the heights.
pub fn least_weighs_least()
    ensures { LeastWeighsLeast }
{}

/// Worked values of the questions about rules and of their linear programs: columns, equations and costs, each with a
/// solution or a dual, and with numbers that are neither.
pub fn questions_have_these_programs()
    ensures { QuestionValues }
{}

/// The questions about rules are well formed if the forms of the rules have no coefficient past their unknowns, so all
/// laws about questions apply to them.
pub fn rule_questions_are_shaped()
    ensures { RuleQuestionsAreShaped }
{}
