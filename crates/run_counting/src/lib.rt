//! The counting lemma behind runtime bounds: if every configuration has levels such that each step by a counted rule
//! decreases the level and only entries increase it, then the entries bound how often the rule occurs.
//!
//! Builds only on `model`. The bounds from ranking functions and the bounds for programs without a cycle are instances
//! of the lemma. Main guarantee: `entries_pay`, and `potentials_pay` for levels that are a function of the
//! configuration. The functions here have no code: the contract of each is a law or a set of worked values.
#![tactic(auto)]

ghost use Rattle.std.specs.Prelude.{ℕ};
ghost use Rattle.model.specs.Runs.{Config};
ghost use Rattle.run_counting.specs.Paying.{EntriesPay, PotentialsPay};
ghost use Rattle.run_counting.specs.Worked.{EntriesBringIn, AccountsPay};

/// A relation between configurations and their levels. A configuration may have many levels, or none.
pub trait Levels {
    ghost HasLevel: { Config → ℕ → Type 0 };
}

/// The counting lemma, for every relation of levels: if only entries increase a level, each by at most its weight, and
/// each step by a rule decreases it by 1, then the rule occurs in every run at most as often as the entries, each
/// occurrence counted with the entry's weight. Levels and weights may be scaled by a common factor.
pub fn entries_pay<L: Levels>()
    ensures { EntriesPay L.HasLevel }
{}

/// The counting lemma for levels that are a function of the configuration (a potential), such as a ranking function.
pub fn potentials_pay()
    ensures { PotentialsPay }
{}

/// Worked values of the income by entries; and levels that pay for a rule, and some that don't.
pub fn worked_values_hold()
    ensures entries { EntriesBringIn }
    ensures accounts { AccountsPay }
{}
