//! What the answers on costs prove.

ghost use Rattle.cost_bounds.specs.Laws.{BoundedCostsAreAccepted, BoundedCostsHold, CostAnswersAreOne};
ghost use Rattle.cost_bounds.specs.Laws.{CostReasonsAreTrue};
ghost use Rattle.cost_bounds.specs.WorkedCosts.{CostsAreWorkedOut};

/// After the lemmas of justified derivations, the lemmas of the costs that are bounded over these derivations are
/// accepted in any order, and each states the bound of its cost. The function has no code, as all functions of this
/// module: its contract is the law.
pub fn bounded_costs_are_accepted()
    ensures { BoundedCostsAreAccepted }
{}

/// A bound on a cost over what is known with justified derivations holds on all runs of a valid program.
pub fn bounded_costs_hold()
    ensures { BoundedCostsHold }
{}

/// A rule has one answer on its cost within a number of pivots, over the same times and sizes.
pub fn cost_answers_are_one()
    ensures { CostAnswersAreOne }
{}

/// Each reason why a cost isn't bounded is true of the program: the cost of one step is unbounded along a ray of its
/// rows from a point of them; a linear program exceeds a limit; a size that its bound reads, or the rule's time, is
/// missing; or the composed bound is too large.
pub fn cost_reasons_are_true()
    ensures { CostReasonsAreTrue }
{}

/// Worked values of which answer is the first that applies, and of the lemmas of costs, with counterexamples.
pub fn costs_are_as_worked_out()
    ensures { CostsAreWorkedOut }
{}
