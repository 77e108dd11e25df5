//! Checks that the turn of a lasso leads back.

ghost use Rattle.std.specs.Prelude.{◌≡◌, ◌≤◌, length, IfOk};
ghost use Rattle.its_model.specs.model.Programs.{arity_of};
ghost use Rattle.its_model.specs.Valid.{IsValid};
ghost use Rattle.its_model.specs.Views.{program_of, config_of};
ghost use Rattle.lasso_check.specs.Checks.{Verdict};
ghost use Rattle.lasso_check.specs.CheckAnswers.{HasVerdict, Finds, FindsOnly};
ghost use Rattle.lasso_check.specs.Views.{lasso_of};

use crate::checking_error::LassoError;
use crate::checking_law::lassos_have_one_verdict;
use crate::closing::{first_difference, rules_used};
use crate::file::Lasso;
use crate::turning::{walk_stem, walk_turn};
use its_model::{Config, Program};
use std::alloc::{AllocError, Global};

/// A turn that leads back: the numbers of its rules, in ascending order, each once, and its cost, or 2^127 if that is
/// more.
#[derive(Debug, PartialEq, Eq, Drop)]
pub struct Turn {
    pub rules: Vec<u32>,
    pub cost: u128,
}

/// Checks that the steps of a lasso are a run, and that its turn leads from a configuration back to the same one, so that
/// it can be repeated without end. The lasso has a start value for each place of the start symbol, and its turn has a
/// step. (Lassos as witnesses of nontermination: Gupta and others, Proving Non-Termination, 2008.)
///
/// # Errors
///
/// The first bad step is the answer, by its number from 1, counted through the stem and the turn. `WrongRule` where there
/// is no such rule, it leaves another symbol than the one at which the run stands, or it has another number of free
/// variables; `GuardFails` with the first atom, from 1, that doesn't hold; `PassedRange` where a value of its guard, its
/// updates or its cost passes 128 bits. Where all steps are good and the configurations before and behind the turn
/// differ, it is `Open`, at 0 where their symbols differ, else at the first place with another value. `Memory` comes
/// where memory ran out.
pub fn check_lasso(alloc: Global, p: &Program, l: &Lasso) -> Result<Turn, LassoError>
    requires valid { IsValid (program_of p.now) }
    requires start { length l.now.start.items ≡ arity_of (program_of p.now) (program_of p.now).start }
    requires turn { 1 ≤ length l.now.turn.items }
    ensures answer { Finds (program_of p.now) (lasso_of l.now) result }
    ensures complete { (v : Verdict) → HasVerdict (program_of p.now) (lasso_of l.now) v → FindsOnly v result }
{
    lassos_have_one_verdict();
    judge(alloc, p, l)
}

// Copies a configuration.
fn copied(alloc: Global, c: &Config) -> Result<Config, AllocError>
    ensures { IfOk result (λ d. config_of d ≡ config_of c.now) }
{
    let mut values = Vec::new(alloc);
    values.extend_from_slice(&c.values)?;
    Ok(Config { at: c.at, values })
}

// Checks that the turn of a lasso leads back.
fn judge(alloc: Global, p: &Program, l: &Lasso) -> Result<Turn, LassoError>
    requires valid { IsValid (program_of p.now) }
    requires start { length l.now.start.items ≡ arity_of (program_of p.now) (program_of p.now).start }
    requires turn { 1 ≤ length l.now.turn.items }
    ensures { Finds (program_of p.now) (lasso_of l.now) result }
{
    let walk = match walk_stem(alloc, p, l) {
        Ok(walk) => walk,
        Err(error) => return Err(error),
    };
    let before = copied(alloc, &walk.here)?;
    let turning = match walk_turn(alloc, p, l, walk) {
        Ok(turning) => turning,
        Err(error) => return Err(error),
    };
    if let Some(place) = first_difference(&before, &turning.walk.here) {
        return Err(LassoError::Open { place });
    }
    let rules = rules_used(alloc, &turning.used)?;
    Ok(Turn {
        rules,
        cost: turning.cost,
    })
}
