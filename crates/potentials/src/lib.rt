//! Potentials over runs: functions at symbols that some steps raise and others pay from, and the facts about all runs
//! that they show. The functions here have no code: the contract of each is a law, or values that were worked out by
//! hand.
#![tactic(auto)]

ghost use Rattle.potentials.specs.Sums.{AllSumsSay};
ghost use Rattle.potentials.specs.Laws.{PotentialsPayForGoals, PotentialsCoverPeaks};
ghost use Rattle.potentials.specs.Nodes.{NodesHold};
ghost use Rattle.potentials.specs.Phases.{PhasesHold};
ghost use Rattle.potentials.specs.Ranks.{RanksAreFalls};
ghost use Rattle.potentials.specs.Worked.{SumsAreWorkedOut, LevelsAreWorkedOut, PotentialsAreWorkedOut};
ghost use Rattle.potentials.specs.Worked.{FactsAreWorkedOut};
ghost use Rattle.potentials.specs.Worked.{QuotientsAndRoots, PhasesAreWorkedOut, WorkedRanksHold};

/// Sums of certain weights over a run are the count of a rule's steps, the run's length, and costs.
pub fn all_sums_say()
    ensures { AllSumsSay }
{}

/// If a potential pays for a goal, the sum of a run's payments is bounded by the first level and the gains of the run.
pub fn potentials_pay_for_goals()
    ensures { PotentialsPayForGoals }
{}

/// If a potential covers a form of a rule, the form is at most the first level or the highest reset, plus the gains
/// since then.
pub fn potentials_cover_peaks()
    ensures { PotentialsCoverPeaks }
{}

/// The fact of each kind of node holds with the bound that the node composes.
pub fn nodes_hold()
    ensures { NodesHold }
{}

/// The number of counted steps of runs that go in two phases is bounded by the first values of both functions.
pub fn phases_hold()
    ensures { PhasesHold }
{}

/// A ranking function whose entries bring in enough is a potential that pays 1 for each step by its rule.
pub fn ranks_are_falls()
    ensures { RanksAreFalls }
{}

/// Worked values, on both sides, of sums, levels, potentials, facts, quotients, roots, phases and ranks.
pub fn potentials_are_as_worked_out()
    ensures sums { SumsAreWorkedOut }
    ensures levels { LevelsAreWorkedOut }
    ensures potentials { PotentialsAreWorkedOut }
    ensures facts { FactsAreWorkedOut }
    ensures quotients { QuotientsAndRoots }
    ensures phases { PhasesAreWorkedOut }
    ensures ranks { WorkedRanksHold }
{}
