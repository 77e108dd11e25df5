//! Whether the steps of a turn keep leading on as the values move.

ghost use Rattle.std.specs.Prelude.{◌≡◌, ◌++◌, ◌<◌, ◌≤◌, length, MatchResult, IfOk, None};
ghost use Rattle.lasso_check.specs.Lassos.{turn_back};
ghost use Rattle.lasso_check.specs.Views.{lasso_of};
ghost use Rattle.its_model.specs.Views.{program_of};
ghost use Rattle.affine_turns.specs.Turns.{affine_after, first_stop_along};
ghost use Rattle.moving_check.specs.Answers.{SaysOnly};
ghost use Rattle.moving_check.specs.Findings.{at_stop, Finding, Found};

use crate::error::{MovingError, stopped_at};
use affine_turns::{Affine, step_on};
use lasso_check::{Lasso, Program};
use std::alloc::{AllocError, Global};

/// The affine values at the places after the turn, from those before it.
///
/// # Errors
///
/// The first step of the turn that fails the test, by its number counted through the stem and the turn, or that memory
/// ran out.
pub(crate) fn integers_behind(
    alloc: Global,
    p: &Program,
    lasso: &Lasso,
    env: &[Affine],
) -> Result<Vec<Affine>, MovingError>
    ensures { MatchResult result
        (λ behind.
        (first_stop_along (program_of p.now) env.now (turn_back (lasso_of lasso.now)) ≡ None)
        × (behind.items ≡ affine_after (program_of p.now) env.now (turn_back (lasso_of lasso.now))))
        (λ e. (f : Finding) → SaysOnly (Found (at_stop
        (first_stop_along (program_of p.now) env.now (turn_back (lasso_of lasso.now)))
        (length lasso.now.stem.items) f)) e) }
{
    let mut places = copied(alloc, env)?;
    for i in 0..lasso.turn.len() {
        places = match step_on(alloc, p, &places, &lasso.turn[i]) {
            Ok(behind) => behind,
            Err(error) => return Err(stopped_at(lasso.stem.len() as u64 + i as u64 + 1, error)),
        };
    }
    Ok(places)
}

// Copies the affine values.
fn copied(alloc: Global, env: &[Affine]) -> Result<Vec<Affine>, AllocError>
    ensures { IfOk result (λ places. places.items ≡ env.now) }
{
    let mut places = Vec::new(alloc);
    places.extend_from_slice(env)?;
    Ok(places)
}
