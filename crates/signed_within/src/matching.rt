//! Matches factors: each factor of a list takes one of another list.

ghost use Rattle.std.specs.Prelude.{◌≡◌, IfOk};
ghost use Rattle.signed_bounds.specs.Views.{signed_of};
ghost use Rattle.signed_within.specs.Views.{signed_at};
ghost use Rattle.signed_within.specs.Tests.{takes as may_take, without, lists_match};
ghost use Rattle.signed_within.specs.Positions.{IsFirstTaken, IsTakenBy, IsTakenOut};

use crate::fitting::{factor_fits, is_equal};
use crate::test::Test;
use poly_terms::Memory;
use signed_bounds::Signed;
use std::alloc::Global;

/// Whether each of the first factors takes one of the second, in turn, and none of the second is left over.
///
/// # Errors
///
/// `Memory` where an allocation fails.
pub(crate) fn factors_match(
    alloc: Global,
    test: Test,
    factors: &[&Signed],
    others: &[&Signed],
) -> Result<bool, Memory>
    ensures { IfOk result (λ r. r ≡ lists_match test (signed_at factors.now) (signed_at others.now)) }
{
    let mut left = Vec::new(alloc);
    left.extend_from_slice(others)?;
    for i in 0..factors.len() {
        let is_taken = take_one(alloc, test, factors[i], &mut left)?;
        if !is_taken {
            return Ok(false);
        }
    }
    Ok(left.is_empty())
}

// Removes the factor that a factor takes from the others, and returns whether there is one.
fn take_one(
    alloc: Global,
    test: Test,
    factor: &Signed,
    left: &mut Vec<&Signed>,
) -> Result<bool, Memory>
    ensures { IfOk result (λ taken. IsTakenOut (without test (signed_of factor.now) (signed_at left.old.items)) taken
        (signed_at left.new.items)) }
{
    let found = position_taken(alloc, test, factor, left)?;
    match found {
        None => Ok(false),
        Some(position) => {
            let _ = left.remove(position);
            Ok(true)
        }
    }
}

// The position of the factor that a factor takes, if there is one.
fn position_taken(
    alloc: Global,
    test: Test,
    factor: &Signed,
    others: &[&Signed],
) -> Result<Option<usize>, Memory>
    ensures { IfOk result (λ o. IsTakenBy (without test (signed_of factor.now)) (signed_at others.now) o) }
{
    match test {
        Test::Equal => first_taken(alloc, Test::Equal, factor, others),
        Test::Fitting => {
            if let Some(position) = first_taken(alloc, Test::Equal, factor, others)? {
                return Ok(Some(position));
            }
            first_taken(alloc, Test::Fitting, factor, others)
        }
    }
}

// The position of the first factor that passes the test, if there is one.
fn first_taken(
    alloc: Global,
    test: Test,
    factor: &Signed,
    others: &[&Signed],
) -> Result<Option<usize>, Memory>
    ensures { IfOk result (λ o. IsFirstTaken (may_take test (signed_of factor.now)) (signed_at others.now) o) }
{
    for i in 0..others.len() {
        let is_taken = takes(alloc, test, factor, others[i])?;
        if is_taken {
            return Ok(Some(i));
        }
    }
    Ok(None)
}

// Whether a factor may take another one, by the test.
fn takes(alloc: Global, test: Test, factor: &Signed, other: &Signed) -> Result<bool, Memory>
    ensures { IfOk result (λ r. r ≡ may_take test (signed_of factor.now) (signed_of other.now)) }
{
    match test {
        Test::Equal => is_equal(alloc, factor, other),
        Test::Fitting => factor_fits(alloc, factor, other),
    }
}
