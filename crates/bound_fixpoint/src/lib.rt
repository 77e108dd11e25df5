//! The rounds of the analysis as plain data: the fixpoint computation of time and size bounds, by key. A key is a rule
//! and a place: place 0 is the rule's time, and the places of its target are its sizes. The result is a list of
//! derivations (a bound with the proof node that shows it), from which the known bounds and the lemmas are read off.
//!
//! Builds on `outcome` and `rule_questions`. Definitions are in `specs/`. Main guarantee: justified derivations have
//! accepted lemmas and hold on all runs (`justified_derivations_have_lemmas`, `justified_derivations_hold`), and the
//! derivations of the rounds are justified (`made_derivations_are_justified`). The functions here have no code: the
//! contract of each is a law.
#![tactic(auto)]

ghost use Rattle.bound_fixpoint.specs.Laws.{JustifiedDerivationsHaveLemmas, DerivationsAreNumbered, JustifiedDerivationsHold, MadeDerivationsAreJustified};
ghost use Rattle.bound_fixpoint.specs.Laws.{RoundsEnd, ComponentsAreUniform, LastDerivationsAreOne, LastDerivationsExist};
ghost use Rattle.bound_fixpoint.specs.Laws.{NodesAreAccepted, MissingBoundsHaveReasons};
ghost use Rattle.bound_fixpoint.specs.WorkedDerivations.{DerivationsAreReadOff, KeysAreWorkedOut, PremisesAreWorkedOut};
ghost use Rattle.bound_fixpoint.specs.WorkedDerivations.{LemmasAreWorkedOut};
ghost use Rattle.bound_fixpoint.specs.WorkedSets.{SetsOfCounting, ShutOfCounting};
ghost use Rattle.bound_fixpoint.specs.WorkedJustification.{JustificationIsWorkedOut};
ghost use Rattle.bound_fixpoint.specs.WorkedStated.{BoundsAreSaidAsWorkedOut};
ghost use Rattle.bound_fixpoint.specs.WorkedFirst.{FirstDerivationsAreWorkedOut, RightAnswersAreWorkedOut};
ghost use Rattle.bound_fixpoint.specs.WorkedFirst.{RightRankingsAreWorkedOut};
ghost use Rattle.bound_fixpoint.specs.WorkedRounds.{FirstRoundIsWorkedOut, LaterRoundsAreWorkedOut, ReasonsAreWorkedOut};
ghost use Rattle.bound_fixpoint.specs.WorkedBeginnings.{BeginningsAreWorkedOut, EmptyDerivationsAreWorkedOut};
ghost use Rattle.bound_fixpoint.specs.WorkedLastRounds.{LastRoundsAreWorkedOut};
ghost use Rattle.bound_fixpoint.specs.WorkedCauses.{RightCausesAreWorkedOut, WrongGapsAreWorkedOut};
ghost use Rattle.bound_fixpoint.specs.WorkedAnswers.{AnswersAreWorkedOut, RightSizesAreWorkedOut, MissingIsWorkedOut};

/// A node with its premises is accepted after all lists of lemmas that state only bounds of its table, and states the
/// bound that it composes.
pub fn nodes_are_accepted()
    ensures { NodesAreAccepted }
{}

/// The lemmas of justified derivations are accepted, and each states the facts of its derivation.
pub fn justified_derivations_have_lemmas()
    ensures { JustifiedDerivationsHaveLemmas }
{}

/// A derived bound is a fact of the lemma with its key's number, and only one derivation states it; these lemmas state
/// all known bounds.
pub fn derivations_are_numbered()
    ensures { DerivationsAreNumbered }
{}

/// Each bound that justified derivations give holds on all runs.
pub fn justified_derivations_hold()
    ensures { JustifiedDerivationsHold }
{}

/// The derivations of rounds are justified, if the answers of the searches are right.
pub fn made_derivations_are_justified()
    ensures { MadeDerivationsAreJustified }
{}

/// Each round derives a bound that was missing, or nothing.
pub fn rounds_end()
    ensures { RoundsEnd }
{}

/// If the components are those of the places of live rules, then in every list of derivations that rounds make the
/// members of each component have one common size, or none.
pub fn components_are_uniform()
    ensures { ComponentsAreUniform }
{}

/// There is at most one last list of derivations; a missing time has one reason, and so has a missing size, if no
/// place is a member of two components.
pub fn last_derivations_are_one()
    ensures { LastDerivationsAreOne }
{}

/// There are initial derivations; if the components are those of the places of live rules, there is a round over each
/// list of derivations, and there is a last list.
pub fn last_derivations_exist()
    ensures { LastDerivationsExist }
{}

/// Where a round derives nothing, each missing time of a rule has a reason, and so has each missing size in a
/// component; with the last derivations each missing size of a place after a rule has one.
pub fn missing_bounds_have_reasons()
    ensures { MissingBoundsHaveReasons }
{}

/// Worked values of the bounds and numbers read off derivations of the program that counts down, of the premises of
/// nodes, and of their lemmas.
pub fn derivations_are_as_worked_out()
    ensures derivations { DerivationsAreReadOff }
    ensures keys { KeysAreWorkedOut }
    ensures premises { PremisesAreWorkedOut }
    ensures lemmas { LemmasAreWorkedOut }
{}

/// Worked values of the sets of the rules of that program, and of their shut places.
pub fn sets_are_as_worked_out()
    ensures sets { SetsOfCounting }
    ensures shut { ShutOfCounting }
{}

/// Worked values of which derivations are justified, in that program and in programs with a rule that is never reached
/// or infeasible, and of which lemmas state the known bounds.
pub fn justification_is_as_worked_out()
    ensures standing { JustificationIsWorkedOut }
    ensures empty { EmptyDerivationsAreWorkedOut }
    ensures said { BoundsAreSaidAsWorkedOut }
{}

/// Worked values of the derivations before the first round, in programs with dead rules, and of which answers are
/// right.
pub fn first_derivations_are_as_worked_out()
    ensures first { FirstDerivationsAreWorkedOut }
    ensures right { RightAnswersAreWorkedOut }
    ensures rankings { RightRankingsAreWorkedOut }
    ensures beginnings { BeginningsAreWorkedOut }
{}

/// Worked values of the rounds of that program, from nothing and from the time of its first rule, one and two rounds,
/// and of a component of two members, and of why bounds are missing where nothing ranks or a bound is too large.
pub fn rounds_are_as_worked_out()
    ensures first { FirstRoundIsWorkedOut }
    ensures later { LaterRoundsAreWorkedOut }
    ensures reasons { ReasonsAreWorkedOut }
    ensures last { LastRoundsAreWorkedOut }
{}

/// Worked values of the results of answers for the program that counts down, of which sizes are right, of how many
/// bounds are missing, and, for small programs, of which reasons of places and which gaps are right.
pub fn answers_are_as_worked_out()
    ensures answers { AnswersAreWorkedOut }
    ensures sizes { RightSizesAreWorkedOut }
    ensures missing { MissingIsWorkedOut }
    ensures causes { RightCausesAreWorkedOut }
    ensures gaps { WrongGapsAreWorkedOut }
{}
