//! Replays a run file: the tally along its run, or its first bad step.

ghost use Rattle.std.specs.Prelude.{◌≡◌, ◌+◌, ◌<◌, length, IfOk, MatchResult};
ghost use Rattle.its_model.specs.model.Programs.{arity_of};
ghost use Rattle.its_model.specs.Valid.{IsValid};
ghost use Rattle.its_model.specs.Views.{program_of};
ghost use Rattle.run_replay.specs.Replays.{BadStep, IsRunInRange, IsFirstBadStep};
ghost use Rattle.run_replay.specs.ReplayAnswers.{last_first, Replays, Tallies, RefusesWith, Refuses, ReplayIsAfter};
ghost use Rattle.run_replay.specs.Views.{run_of};

use crate::file::RunFile;
use crate::replaying_error::{ReplayError, error_at};
use crate::replaying_law::replays_are_decided;
use crate::tally::Tally;
use crate::walk::Walk;
use its_model::{Program, costs_have_no_fault, steps_have_no_fault};
use std::alloc::{AllocError, Global};

/// Takes the steps of a run one after the other, from its start values, and tallies the steps, the values and the
/// costs. The run has a start value for each place of the start symbol.
///
/// # Errors
///
/// The first bad step, with its number from 1: `WrongRule` if there is no such rule, its source isn't the symbol that
/// the run has reached, or it has another number of free variables; `GuardFails` with the first atom, from 1, that
/// doesn't hold; `PassedRange` if a value of its guard, its updates or its cost exceeds 128 bits. In a step the atoms
/// are checked in order, the left side before the right one, then the updates, and then the cost. `Memory` is returned
/// if memory ran out.
pub fn replay(alloc: Global, p: &Program, run: &RunFile) -> Result<Tally, ReplayError>
    requires valid { IsValid (program_of p.now) }
    requires start { length run.now.start.items ≡ arity_of (program_of p.now) (program_of p.now).start }
    ensures answer { Replays (program_of p.now) (run_of run.now) result }
    ensures complete { IsRunInRange (program_of p.now) run.now.start.items (last_first (run_of run.now))
        → Tallies result }
    ensures refused { (bad : BadStep)
        → IsFirstBadStep (program_of p.now) run.now.start.items (last_first (run_of run.now)) bad
        → RefusesWith bad result }
{
    replays_are_decided();
    let mut standing = Standing::new(alloc, p, run)?;
    for i in 0..run.steps.len() {
        if let Err(error) = standing.step_on(p, run, i) {
            return Err(error);
        }
    }
    Ok(standing.tally)
}

/// The state of a replay: the configuration that it has reached, and the tally so far.
#[derive(Drop)]
pub struct Standing {
    pub walk: Walk,
    pub tally: Tally,
}

impl Standing {
    // The state at the beginning of the run.
    fn new(alloc: Global, p: &Program, run: &RunFile) -> Result<Standing, AllocError>
        requires valid { IsValid (program_of p.now) }
        requires start { length run.now.start.items ≡ arity_of (program_of p.now) (program_of p.now).start }
        ensures { IfOk result (λ s. ReplayIsAfter (program_of p.now) (run_of run.now) 0 s) }
    {
        Ok(Standing {
            walk: Walk::new(alloc, p, &run.start)?,
            tally: Tally::new(alloc, p)?,
        })
    }

    // Takes the next step of the run.
    fn step_on(&mut self, p: &Program, run: &RunFile, i: usize) -> Result<(), ReplayError>
        requires valid { IsValid (program_of p.now) }
        requires step { i < length run.now.steps.items }
        requires stands { ReplayIsAfter (program_of p.now) (run_of run.now) i self.old }
        ensures { MatchResult result (λ _. ReplayIsAfter (program_of p.now) (run_of run.now) (i + 1) self.new)
            (Refuses (program_of p.now) (run_of run.now)) }
    {
        steps_have_no_fault();
        costs_have_no_fault();
        let step = &run.steps[i];
        match self.walk.step_on(p, step) {
            Ok(cost) => {
                self.tally.note(step.rule, &self.walk.here.values, cost);
                Ok(())
            }
            Err(error) => Err(error_at(i as u64 + 1, error)),
        }
    }
}
