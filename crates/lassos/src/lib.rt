//! Lassos: a stem, which is a run to a configuration, and a turn from there that leads back to it, or on by the same
//! differences each time. They show that rules occur arbitrarily often, so that no bound on their number of occurrences
//! holds.
//!
//! Builds on `model` (programs, steps and runs). Main guarantee: for each rule of a lasso's turn and each number, some
//! run from the lasso's start values uses the rule at least that often, so no runtime bound of it holds. The functions
//! here have no code: the contract of each is a law or a set of worked values.
#![tactic(auto)]

ghost use Rattle.lassos.specs.Laws.{LassosAreEndless, EndlessRulesHaveNoTime, CostlyTurnsHaveNoTotal, MovedTurnsLead};
ghost use Rattle.lassos.specs.Worked.{LassosAreFound, SlopesAreFound};

/// Each rule of a lasso's turn occurs arbitrarily often: for each number there is a run from the lasso's start values
/// in which the rule occurs at least that often. So no runtime bound of it holds; and if each turn costs something, no
/// bound on the cost of all steps holds. (An infinite run as a witness of nontermination: Gupta and others, Proving
/// Non-Termination, 2008.)
pub fn lassos_are_endless()
    ensures endless { LassosAreEndless }
    ensures no_time { EndlessRulesHaveNoTime }
    ensures no_total { CostlyTurnsHaveNoTotal }
{}

/// A turn that moves on leads from the configuration after any number of turns to the one after one more.
pub fn moved_turns_lead()
    ensures { MovedTurnsLead }
{}

/// Worked values: small programs have the expected lassos and no others, and expressions the expected differences.
pub fn worked_values_hold()
    ensures lassos { LassosAreFound }
    ensures slopes { SlopesAreFound }
{}
