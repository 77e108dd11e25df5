//! Walking along the stem and the turn of a lasso.

ghost use Rattle.std.specs.Prelude.{◌≡◌, ◌+◌, ◌-◌, ◌<◌, ◌≤◌, ℕ, length, slice_index_or, IfOk, MatchResult};
ghost use Rattle.its_model.specs.model.Programs.{arity_of};
ghost use Rattle.its_model.specs.model.Spending.{step_cost};
ghost use Rattle.its_model.specs.Valid.{IsValid};
ghost use Rattle.its_model.specs.Views.{program_of, step_of};
ghost use Rattle.run_replay.specs.ReplayAnswers.{first_steps};
ghost use Rattle.lasso_check.specs.Lassos.{run_along};
ghost use Rattle.lasso_check.specs.CheckAnswers.{HasTaken, HasTurned, RefusesStep};
ghost use Rattle.lasso_check.specs.Views.{lasso_of};

use crate::checking_error::{LassoError, error_at};
use crate::file::Lasso;
use bound_expr::capped_add;
use its_model::{Program, Step, costs_have_no_fault, steps_have_no_fault};
use run_replay::Walk;
use std::alloc::Global;

/// A walk along a turn, and the record of its steps so far: whether each rule was used, and what the steps cost
/// together, or 2^127 if that is more.
#[derive(Drop)]
pub struct Turning {
    pub walk: Walk,
    pub used: Vec<bool>,
    pub cost: u128,
}

// Takes the step at a position, counted through the stem and the turn, and returns its cost.
fn step_along(
    walk: &mut Walk,
    p: &Program,
    lasso: &Lasso,
    i: u64,
    step: &Step,
) -> Result<u128, LassoError>
    requires valid { IsValid (program_of p.now) }
    requires position { i < length lasso.now.stem.items + length lasso.now.turn.items }
    requires step { step_of step.now
        ≡ slice_index_or (run_along (lasso_of lasso.now)).steps i (step_of step.now) }
    requires taken { HasTaken (program_of p.now) (lasso_of lasso.now) i walk.old }
    ensures taken { MatchResult result (λ _. HasTaken (program_of p.now) (lasso_of lasso.now) (i + 1) walk.new)
        (RefusesStep (program_of p.now) (lasso_of lasso.now)) }
    ensures cost { IfOk result (λ n. n ≡ step_cost (program_of p.now) lasso.now.start.items (step_of step.now)
        (first_steps (run_along (lasso_of lasso.now)) i)) }
    ensures rule { IfOk result (λ _. (1 ≤ step.now.rule) × (step.now.rule ≤ length p.now.rules.items)) }
{
    steps_have_no_fault();
    costs_have_no_fault();
    match walk.step_on(p, step) {
        Ok(cost) => Ok(cost),
        Err(error) => Err(error_at(i + 1, error)),
    }
}

/// Walks along the stem.
///
/// # Errors
///
/// The first bad step, or that memory ran out.
pub fn walk_stem(alloc: Global, p: &Program, lasso: &Lasso) -> Result<Walk, LassoError>
    requires valid { IsValid (program_of p.now) }
    requires start { length lasso.now.start.items ≡ arity_of (program_of p.now) (program_of p.now).start }
    ensures { MatchResult result
        (HasTaken (program_of p.now) (lasso_of lasso.now) (length lasso.now.stem.items))
        (RefusesStep (program_of p.now) (lasso_of lasso.now)) }
{
    let mut walk = Walk::new(alloc, p, &lasso.start)?;
    for i in 0..lasso.stem.len() {
        let step = &lasso.stem[i];
        if let Err(error) = step_along(&mut walk, p, lasso, i as u64, step) {
            return Err(error);
        }
    }
    Ok(walk)
}

impl Turning {
    // Takes the next step of the turn.
    fn step_on(&mut self, p: &Program, lasso: &Lasso, i: usize) -> Result<(), LassoError>
        requires valid { IsValid (program_of p.now) }
        requires step { i < length lasso.now.turn.items }
        requires turned { HasTurned (program_of p.now) (lasso_of lasso.now) i self.old }
        ensures { MatchResult result (λ _. HasTurned (program_of p.now) (lasso_of lasso.now) (i + 1) self.new)
            (RefusesStep (program_of p.now) (lasso_of lasso.now)) }
    {
        let step = &lasso.turn[i];
        let position = lasso.stem.len() as u64 + i as u64;
        match step_along(&mut self.walk, p, lasso, position, step) {
            Ok(cost) => {
                self.used[step.rule as usize - 1] = true;
                self.cost = capped_add(self.cost, cost);
                Ok(())
            }
            Err(error) => Err(error),
        }
    }
}

/// Walks along the turn, after the stem.
///
/// # Errors
///
/// The first bad step, or that memory ran out.
pub fn walk_turn(
    alloc: Global,
    p: &Program,
    lasso: &Lasso,
    walk: Walk,
) -> Result<Turning, LassoError>
    requires valid { IsValid (program_of p.now) }
    requires taken { HasTaken (program_of p.now) (lasso_of lasso.now) (length lasso.now.stem.items) walk }
    ensures { MatchResult result
        (HasTurned (program_of p.now) (lasso_of lasso.now) (length lasso.now.turn.items))
        (RefusesStep (program_of p.now) (lasso_of lasso.now)) }
{
    let used = vec![in alloc; false; p.rules.len()]?;
    let mut turning = Turning {
        walk,
        used,
        cost: 0,
    };
    for i in 0..lasso.turn.len() {
        if let Err(error) = turning.step_on(p, lasso, i) {
            return Err(error);
        }
    }
    Ok(turning)
}
