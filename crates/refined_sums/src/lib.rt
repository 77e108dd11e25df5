//! Sums over runs and peaks carry over from a program that simulates another: to a sum over the steps of a rule the sum
//! of those over its copies, to a peak at a rule the greatest of those at its copies. The functions here have no code:
//! the contract of each is a law, or values that were worked out by hand.
//!
//! Builds on `refinement` (programs that simulate others) and `potentials` (sums over runs and peaks). Main guarantee:
//! a bound on a sum or a peak of the program that simulates is one of the program that is simulated.
#![tactic(auto)]

ghost use Rattle.refined_sums.specs.Laws.{SimulationKeepsSums, SectionsKeepSums};
ghost use Rattle.refined_sums.specs.Worked.{SumsAreKeptOrNot, SumsAreWorkedOut};

use refinement::Facts;

/// Where a program simulates another, a bound on what its steps weigh by the rules below them bounds what the steps of
/// the other weigh. The sum of bounds on the copies of a rule bounds the sum over the steps of the rule, and the
/// greatest of their peaks the peak at the rule. Times, costs, lengths and totals are such sums.
pub fn simulations_keep_sums<F: Facts>()
    ensures { SimulationKeepsSums F.HasFacts }
{}

/// The same of the program that a section spells.
pub fn sections_keep_sums()
    ensures { SectionsKeepSums }
{}

/// Sums and greatest values over copies, and what is charged at them, as they were worked out by hand.
pub fn sums_are_worked_out()
    ensures { SumsAreWorkedOut }
{}

/// A program keeps its own sums. One whose rule has another update doesn't simulate it, and one without a rule that is
/// used doesn't keep its sums.
pub fn sums_are_kept_or_not()
    ensures { SumsAreKeptOrNot }
{}
