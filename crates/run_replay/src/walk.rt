//! Walking along steps: the next configuration, and the cost of each step.

ghost use Rattle.std.specs.Prelude.{◌≡◌, ◌≤◌, ◌++◌, length, IfOk, IfErr, MatchResult, None, Some};
ghost use Rattle.its_model.specs.model.Programs.{arity_of};
ghost use Rattle.its_model.specs.model.Runs.{Begins, IsStep};
ghost use Rattle.its_model.specs.model.Spending.{cost};
ghost use Rattle.its_model.specs.Costs.{cost_fault};
ghost use Rattle.its_model.specs.StepAnswers.{fault_of};
ghost use Rattle.its_model.specs.Steps.{maximum_arity};
ghost use Rattle.its_model.specs.Valid.{IsValid};
ghost use Rattle.its_model.specs.Views.{program_of, config_of, step_of};
ghost use Rattle.run_replay.specs.Replays.{replay_fault};
ghost use Rattle.run_replay.specs.ReplayAnswers.{CanWalk};

use its_model::{Config, Program, Step, StepError, cost_checked, step_checked};
use std::alloc::{AllocError, Global};
use std::mem::swap;

/// The configuration that steps of a program have reached, and a second one into which the next step is computed.
#[derive(Drop)]
pub struct Walk {
    /// The configuration that the steps so far have reached.
    pub here: Config,
    pub(crate) next: Config,
}

impl Walk {
    /// The walk without a step, at the start symbol with these values.
    ///
    /// # Errors
    ///
    /// If an allocation fails.
    pub fn new(alloc: Global, p: &Program, start: &[i128]) -> Result<Walk, AllocError>
        requires valid { IsValid (program_of p.now) }
        requires start { length start.now ≡ arity_of (program_of p.now) (program_of p.now).start }
        ensures begins { IfOk result (λ w. Begins (program_of p.now) start.now (config_of w.here)) }
        ensures walks { IfOk result (λ w. CanWalk (program_of p.now) w) }
    {
        let places = most_places(p);
        let mut values = Vec::with_capacity(alloc, places)?;
        values.extend_from_slice(start)?;
        Ok(Walk {
            here: Config {
                at: p.start,
                values,
            },
            next: Config {
                at: p.start,
                values: Vec::with_capacity(alloc, places)?,
            },
        })
    }

    /// Takes a step, and returns its cost: the value of its rule's cost at the values before the step, or 0 if that is
    /// negative; 1 if the rule has no cost. Allocates no memory. A refused step leaves the walk unchanged.
    ///
    /// # Errors
    ///
    /// The first fault of the step: `WrongRule` if there is no such rule, its source is another symbol, or it has
    /// another number of free variables; `GuardFails` with the first atom, from 1, that doesn't hold; `PassedRange` if
    /// a value exceeds 128 bits. The atoms are checked in order, the left side before the right one, then the updates,
    /// and then the cost.
    pub fn step_on(&mut self, p: &Program, step: &Step) -> Result<u128, StepError>
        requires valid { IsValid (program_of p.now) }
        requires walks { CanWalk (program_of p.now) self.old }
        ensures fault { MatchResult result
            (λ _. replay_fault (program_of p.now) (config_of self.old.here) (step_of step.now) ≡ None)
            (λ e. replay_fault (program_of p.now) (config_of self.old.here) (step_of step.now) ≡ Some (fault_of e)) }
        ensures step { IfOk result (λ _. IsStep (program_of p.now) (config_of self.old.here) (step_of step.now)
            (config_of self.new.here)) }
        ensures cost { IfOk result (λ n.
            n ≡ cost (program_of p.now) step.now.rule (self.old.here.values.items ++ step.now.free.items)) }
        ensures refused { IfErr result (λ _. self.new.here ≡ self.old.here) }
        ensures walks { CanWalk (program_of p.now) self.new }
    {
        match step_checked(p, &self.here, step, &mut self.next) {
            Ok(()) => self.charge(p, step),
            Err(error) => Err(error),
        }
    }

    // Moves to the next configuration, to which a good step leads, and returns the cost of the step.
    fn charge(&mut self, p: &Program, step: &Step) -> Result<u128, StepError>
        requires valid { IsValid (program_of p.now) }
        requires places { length self.old.here.values.items ≡ arity_of (program_of p.now) self.old.here.at }
        ensures fault { MatchResult result
            (λ _. cost_fault (program_of p.now) (config_of self.old.here) (step_of step.now) ≡ None)
            (λ e. cost_fault (program_of p.now) (config_of self.old.here) (step_of step.now) ≡ Some (fault_of e)) }
        ensures cost { IfOk result (λ n.
            n ≡ cost (program_of p.now) step.now.rule (self.old.here.values.items ++ step.now.free.items)) }
        ensures moved { MatchResult result
            (λ _. (self.new.here ≡ self.old.next) × (self.new.next ≡ self.old.here))
            (λ _. (self.new.here ≡ self.old.here) × (self.new.next ≡ self.old.next)) }
    {
        match cost_checked(p, &self.here, step) {
            Ok(cost) => {
                swap(&mut self.here, &mut self.next);
                Ok(cost)
            }
            Err(error) => Err(error),
        }
    }
}

// The maximum number of places of a symbol.
fn most_places(p: &Program) -> usize
    ensures { result ≡ maximum_arity (program_of p.now).symbols }
{
    let mut most = 0;
    for symbol in &p.symbols {
        most = most.max(symbol.arity as usize);
    }
    most
}
