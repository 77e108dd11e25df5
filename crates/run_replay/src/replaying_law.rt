//! Laws of replays.

ghost use Rattle.run_replay.specs.ReplayLaws.{ReplaysAreDecided};
ghost use Rattle.run_replay.specs.WorkedReplays.{ReplaysAreWorkedOut};

use its_model::{costs_have_no_fault, steps_have_no_fault};

/// A run in range has no bad step, and steps have at most one first bad step. In a valid program, with a start value
/// for each place, steps are a run in range or have a first bad step. The greatest absolute value at a place after a
/// rule in the tally is the greatest one along the run. The function's only code calls the laws of single steps and of
/// their costs; its contract is the law.
pub fn replays_are_decided()
    ensures { ReplaysAreDecided }
{
    steps_have_no_fault();
    costs_have_no_fault();
}

/// Worked values: which steps are a run in range, the first bad steps, and the tallies. The function's only code calls
/// the laws of single steps and of their costs; its contract is these values.
pub fn worked_replays_hold()
    ensures { ReplaysAreWorkedOut }
{
    steps_have_no_fault();
    costs_have_no_fault();
}
