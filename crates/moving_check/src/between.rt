//! By how much values change along a turn.

ghost use Rattle.std.specs.Prelude.{◌≡◌, ◌-ℤ◌, slice_index_or, MatchResult, IfOk, None};
ghost use Rattle.affine_turns.specs.Affine.{within, between, slopes};
ghost use Rattle.moving_check.specs.Answers.{SaysOnly};
ghost use Rattle.moving_check.specs.Findings.{integer_at, first_wide, first_change, at_place, Finding, Found, PassesAt};

use crate::error::MovingError;
use affine_turns::Affine;
use std::alloc::{AllocError, Global};

/// The affine values that have these values before the turn and after it.
///
/// # Errors
///
/// The first place at which the difference passes 128 bits, or that memory ran out.
pub(crate) fn integers_between(
    alloc: Global,
    before: &[i128],
    behind: &[i128],
) -> Result<Vec<Affine>, MovingError>
    ensures { MatchResult result
        (λ env. (first_wide 1 (between before.now behind.now) ≡ None) × (env.items ≡ between before.now behind.now))
        (λ e. (f : Finding) → SaysOnly (Found (at_place (first_wide 1 (between before.now behind.now)) PassesAt f)) e) }
{
    let mut env = Vec::new(alloc);
    for i in 0..before.len() {
        match integer_at(before, behind, i) {
            Some(integer) => env.push(integer)?,
            None => {
                return Err(MovingError::DifferencePasses {
                    place: i as u64 + 1,
                });
            }
        }
    }
    Ok(env)
}

// The affine value at a place, if 128 bits hold the difference of its values.
fn integer_at(before: &[i128], behind: &[i128], i: usize) -> Option<Affine>
    ensures { result ≡ integer_at before.now behind.now i }
{
    let first = value_at(before, i, 0);
    let slope = change(value_at(behind, i, first), first)?;
    Some(Affine { first, slope })
}

// By how much a value differs from another one, if 128 bits hold that.
fn change(behind: i128, before: i128) -> Option<i128>
    ensures { result ≡ within (behind -ℤ before) }
{
    behind.checked_sub(before)
}

// The value at a place, or `missing` if the list doesn't have it.
fn value_at(values: &[i128], i: usize, missing: i128) -> i128
    ensures { result ≡ slice_index_or values.now i missing }
{
    if i < values.len() { values[i] } else { missing }
}

/// The first place, from 1, whose slope after the turn is another one, or that only one of the lists has.
pub(crate) fn changed_place(env: &[Affine], behind: &[Affine]) -> Option<u64>
    ensures { result ≡ first_change 1 env.now behind.now }
{
    let both = env.len().min(behind.len());
    for i in 0..both {
        if env[i].slope != behind[i].slope {
            return Some(i as u64 + 1);
        }
    }
    if env.len() == behind.len() {
        None
    } else {
        Some(both as u64 + 1)
    }
}

/// The slopes of the affine values.
pub(crate) fn slopes_of(alloc: Global, env: &[Affine]) -> Result<Vec<i128>, AllocError>
    ensures { IfOk result (λ found. found.items ≡ slopes env.now) }
{
    let mut found = Vec::new(alloc);
    for a in env {
        found.push(a.slope)?;
    }
    Ok(found)
}
