//! The laws of run texts.

ghost use Rattle.run_replay.specs.Spelled.{OneRun};
ghost use Rattle.run_replay.specs.Worked.{RunsAreWorkedOut};

/// Worked values of reading small run texts. The function has no code: its contract is the law.
pub fn worked_runs_hold()
    ensures { RunsAreWorkedOut }
{}

/// A text is that of at most one run, whatever the program and the limits, if no number has more than 64 digits (no
/// number of a run file has). The function has no code: its contract is the law.
pub fn texts_are_of_one_run()
    ensures { OneRun }
{}
