//! Laws of every run, step by step; the entries of a set of rules; and worked values of paths.

ghost use Rattle.model.specs.RunLaws.{AllRunsGoStepByStep};
ghost use Rattle.model.specs.Entries.{AllEntriesAreListed};
ghost use Rattle.model.specs.PathValues.{PathsAreWorkedOut};

/// A prefix of a run is a run. A run ends at the target of its last rule, and the rule of a step can come just before
/// the rule of the next step. A run that uses only allowed rules ends at a symbol that is reachable by them. If arities
/// agree, a run ends at a configuration with one value for each argument of its symbol.
pub fn runs_go_step_by_step()
    ensures { AllRunsGoStepByStep }
{}

/// A number is in the list of the entries of a set exactly if it is an entry: a rule outside the set, or the virtual
/// entry, that can come just before a rule of the set. The list ascends.
pub fn entries_are_listed()
    ensures { AllEntriesAreListed }
{}

/// Worked values of paths, of the rules that can come just before a rule, of sets of untimed rules and of entries.
pub fn paths_are_as_worked_out()
    ensures { PathsAreWorkedOut }
{}
