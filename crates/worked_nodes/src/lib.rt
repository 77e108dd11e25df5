//! Worked values of nodes of derivations on small programs: which are accepted, with which facts, and which are refused,
//! for which first reason.
//!
//! Builds on `cert_program`. No crate depends on this one, so its proofs delay no other. The functions here have no
//! code: the contract of each is a set of values worked out by hand.
#![tactic(auto)]

ghost use Rattle.worked_nodes.specs.WorkedLemmas.{FallingLoopsAreJudged, DeadRulesAreJudged, SquaresAreJudged};
ghost use Rattle.worked_nodes.specs.WorkedLoops.{NestedLoopsAreJudged, DoublingIsJudged};
ghost use Rattle.worked_nodes.specs.WorkedOrder.{RankReasonsAreInOrder, LoopReasonsAreInOrder};
ghost use Rattle.worked_nodes.specs.WorkedOrder.{SizeReasonsAreInOrder, PlainReasonsAreInOrder};
ghost use Rattle.worked_nodes.specs.WorkedShapes.{ShapesAreRefused, RankLimitsAreMet, SideBoundLimitsAreMet};
ghost use Rattle.worked_nodes.specs.WorkedShapes.{WeakerLimitsAreMet, FirstFactsCount};
ghost use Rattle.worked_nodes.specs.WorkedCosts.{CostsAreJudged, CostReasonsAreInOrder};

/// Worked values: lemmas on small programs that are accepted, with their facts: on loops that fall, on nested loops, on
/// a loop that doubles before another one counts down, on rules that never run, and on squares.
pub fn lemmas_are_as_worked_out()
    ensures falling { FallingLoopsAreJudged }
    ensures dead { DeadRulesAreJudged }
    ensures squares { SquaresAreJudged }
    ensures nested { NestedLoopsAreJudged }
    ensures doubling { DoublingIsJudged }
{}

/// Worked values: which reason is given for nodes with more than one fault.
pub fn reasons_are_as_worked_out()
    ensures ranks { RankReasonsAreInOrder }
    ensures loops { LoopReasonsAreInOrder }
    ensures sizes { SizeReasonsAreInOrder }
    ensures plain { PlainReasonsAreInOrder }
{}

/// Worked values: wrong shapes are refused; numbers are accepted up to their limits and no further; and of several
/// facts with one key the first counts.
pub fn shapes_are_as_worked_out()
    ensures shapes { ShapesAreRefused }
    ensures ranks { RankLimitsAreMet }
    ensures side_bounds { SideBoundLimitsAreMet }
    ensures weaker { WeakerLimitsAreMet }
    ensures facts { FirstFactsCount }
{}

/// Worked values: lemmas on programs with costs that are accepted, with their facts, and nodes on costs that are
/// refused, with their reasons.
pub fn costs_are_as_worked_out()
    ensures judged { CostsAreJudged }
    ensures reasons { CostReasonsAreInOrder }
{}
