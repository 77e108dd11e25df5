//! Checks that the turn of a lasso moves on.

ghost use Rattle.std.specs.Prelude.{◌≡◌, ◌≤◌, length, IfOk};
ghost use Rattle.its_model.specs.Valid.{IsValid};
ghost use Rattle.its_model.specs.Views.{program_of, config_of};
ghost use Rattle.its_model.specs.model.Programs.{arity_of};
ghost use Rattle.lasso_check.specs.CheckAnswers.{HasTurned};
ghost use Rattle.lasso_check.specs.Lassos.{stem_back};
ghost use Rattle.lasso_check.specs.Views.{lasso_of};
ghost use Rattle.run_replay.specs.Replays.{RunsInRange};
ghost use Rattle.moving_check.specs.Answers.{Finds, FindsOnly};
ghost use Rattle.moving_check.specs.Findings.{Verdict, Found, HasVerdict, found_between};

use crate::along::integers_behind;
use crate::between::{changed_place, integers_between, slopes_of};
use crate::error::{MovingError, bad_step};
use crate::law::lassos_have_one_verdict;
use its_model::Config;
use lasso_check::{Lasso, Program, Turning, rules_used, walk_stem, walk_turn};
use std::alloc::{AllocError, Global};

/// A turn that moves on: by how much the value at each place changes in each turn; its rules by their numbers, ascending,
/// each once; and what the first turn costs, or 2^127 where it costs more.
#[derive(Debug, PartialEq, Eq, Drop)]
pub struct Moving {
    pub differences: Vec<i128>,
    pub rules: Vec<u32>,
    pub cost: u128,
}

/// Checks that the steps of a lasso are a run, and that its turn leads on by the same differences each time without end:
/// it leads back to its symbol; along it, with the values moving by these differences, each atom's sides change so that
/// the atom goes on to hold, and each new value changes by the same amount each time; and behind it the values change by
/// these differences again. All but the run is seen from the parts of expressions, where of a product one factor has to
/// stay, and of a power the base. A turn that leads back is the case of differences that are all 0. The lasso has a start
/// value for each place of the start symbol, and its turn has a step. (Such runs are the simplest of those in Leike and
/// Heizmann, Geometric Nontermination Arguments, 2018.)
///
/// # Errors
///
/// The first bad step is the answer, as `check_lasso` gives it. Where all steps are good it is the first of these that is
/// so: `OtherSymbol` where the symbols before and behind the turn differ; `DifferencePasses` with the first place at which
/// the difference of the values passes 128 bits; `AtomStops` or `NonlinearPlace` with the first step of the turn that isn't
/// seen to go on, counted through the stem and the turn, and its first atom, or else its first place, of which it isn't
/// seen; `DifferenceChanges` with the first place whose value changes by another amount behind the turn than before it.
/// `Memory` comes where memory ran out.
pub fn check_moving(alloc: Global, p: &Program, l: &Lasso) -> Result<Moving, MovingError>
    requires valid { IsValid (program_of p.now) }
    requires start { length l.now.start.items ≡ arity_of (program_of p.now) (program_of p.now).start }
    requires turn { 1 ≤ length l.now.turn.items }
    ensures answer { Finds (program_of p.now) (lasso_of l.now) result }
    ensures complete { (v : Verdict) → HasVerdict (program_of p.now) (lasso_of l.now) v → FindsOnly v result }
{
    lassos_have_one_verdict();
    judge(alloc, p, l)
}

// Checks that the turn of a lasso moves on.
fn judge(alloc: Global, p: &Program, l: &Lasso) -> Result<Moving, MovingError>
    requires valid { IsValid (program_of p.now) }
    requires start { length l.now.start.items ≡ arity_of (program_of p.now) (program_of p.now).start }
    requires turn { 1 ≤ length l.now.turn.items }
    ensures { Finds (program_of p.now) (lasso_of l.now) result }
{
    let walk = match walk_stem(alloc, p, l) {
        Ok(walk) => walk,
        Err(error) => return Err(bad_step(error)),
    };
    let before = copied(alloc, &walk.here)?;
    let turning = match walk_turn(alloc, p, l, walk) {
        Ok(turning) => turning,
        Err(error) => return Err(bad_step(error)),
    };
    found_behind(alloc, p, l, &before, &turning)
}

// Copies a configuration.
fn copied(alloc: Global, c: &Config) -> Result<Config, AllocError>
    ensures { IfOk result (λ d. config_of d ≡ config_of c.now) }
{
    let mut values = Vec::new(alloc);
    values.extend_from_slice(&c.values)?;
    Ok(Config { at: c.at, values })
}

// The result if all steps are good, from the configuration before the turn and the record of its steps.
fn found_behind(
    alloc: Global,
    p: &Program,
    l: &Lasso,
    before: &Config,
    turning: &Turning,
) -> Result<Moving, MovingError>
    requires valid { IsValid (program_of p.now) }
    requires turned { HasTurned (program_of p.now) (lasso_of l.now) (length l.now.turn.items) turning.now }
    requires stem { RunsInRange (program_of p.now) l.now.start.items (stem_back (lasso_of l.now))
        (config_of before.now) }
    ensures { FindsOnly (Found (found_between (program_of p.now) (lasso_of l.now) (config_of before.now)
        (config_of turning.now.walk.here))) result }
{
    if before.at != turning.walk.here.at {
        return Err(MovingError::OtherSymbol);
    }
    let env = integers_between(alloc, &before.values, &turning.walk.here.values)?;
    let behind = integers_behind(alloc, p, l, &env)?;
    if let Some(place) = changed_place(&env, &behind) {
        return Err(MovingError::DifferenceChanges { place });
    }
    let rules = rules_used(alloc, &turning.used)?;
    Ok(Moving {
        differences: slopes_of(alloc, &env)?,
        rules,
        cost: turning.cost,
    })
}
