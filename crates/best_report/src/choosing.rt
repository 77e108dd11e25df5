//! Which of two bounds on a subject is printed.

ghost use Rattle.std.specs.Prelude.{◌≡◌, option_map, IfOk};
ghost use Rattle.signed_bounds.specs.Views.{signed_of};
ghost use Rattle.signed_values.specs.Starts.{starts_of};
ghost use Rattle.signed_values.specs.Comparing.{IsAtMostAt};
ghost use Rattle.best_report.specs.Choices.{least_of, IsOneOrMinimum, IsChosen, IsLeastWithinLimits};
ghost use Rattle.best_report.specs.Choices.{IsAtMostStatedOrOverLimit, IsAtMostStated, IsNoWorse};

use model::Memory;
use potential_types::copied_bound;
use signed_bounds::Signed;
use signed_values::is_at_most;
use std::alloc::Global;

/// The bound that is printed where an analysis found one or none, and a statement has one or none: the only one, if
/// there is one; of two the one that isn't greater at any list of start values, the stated one first; and else their
/// minimum, or the one of the analysis, where the minimum would pass the limits of bounds.
///
/// # Errors
///
/// `Memory` where an allocation fails.
pub(crate) fn bound_to_print(
    alloc: Global,
    found: Option<Signed>,
    known: Option<&Signed>,
    starts: &[Vec<i128>],
) -> Result<Option<Signed>, Memory>
    ensures choice { IfOk result (λ b. IsChosen (option_map signed_of found)
        (option_map (λ k. signed_of k.now) known.entry) (option_map signed_of b)) }
    ensures no_worse { IfOk result (λ b.
        IsNoWorse (starts_of starts.now) (option_map signed_of found) (option_map signed_of b)) }
    ensures at_most_stated { IfOk result (λ b. IsAtMostStated (starts_of starts.now) (option_map signed_of found)
        (option_map (λ k. signed_of k.now) known.entry) (option_map signed_of b)) }
{
    match found {
        None => match known {
            None => Ok(None),
            Some(stated) => Ok(Some(copied_bound(alloc, stated)?)),
        },
        Some(found) => match known {
            None => Ok(Some(found)),
            Some(stated) => Ok(Some(better_of_two(alloc, found, stated, starts)?)),
        },
    }
}

// Of the bound of an analysis and a stated one the one that isn't greater at any list of start values, or else the
// minimum of both, within the limits.
fn better_of_two(
    alloc: Global,
    found: Signed,
    stated: &Signed,
    starts: &[Vec<i128>],
) -> Result<Signed, Memory>
    ensures choice { IfOk result (λ b. IsOneOrMinimum (signed_of found) (signed_of stated.now) (signed_of b)) }
    ensures no_worse { IfOk result (λ b. IsAtMostAt (starts_of starts.now) (signed_of b) (signed_of found)) }
    ensures at_most_stated { IfOk result (λ b.
        IsAtMostStatedOrOverLimit (starts_of starts.now) (signed_of found) (signed_of stated.now) (signed_of b)) }
{
    if is_at_most(stated, &found, starts) {
        return copied_bound(alloc, stated);
    }
    if is_at_most(&found, stated, starts) {
        return Ok(found);
    }
    minimum_or_first(alloc, found, stated)
}

// The minimum of two bounds, or the first one, where the minimum would pass the limits.
fn minimum_or_first(alloc: Global, found: Signed, stated: &Signed) -> Result<Signed, Memory>
    ensures { IfOk result (λ b. IsLeastWithinLimits (signed_of found) (signed_of stated.now) (signed_of b)) }
{
    let both = minimum(alloc, &found, stated)?;
    Ok(if both.exceeds_limits() { found } else { both })
}

// The minimum of two bounds.
fn minimum(alloc: Global, found: &Signed, stated: &Signed) -> Result<Signed, Memory>
    ensures { IfOk result (λ b. signed_of b ≡ least_of (signed_of found.now) (signed_of stated.now)) }
{
    let first = Box::new(alloc, copied_bound(alloc, stated)?)?;
    let mut others = Vec::new(alloc);
    others.push(copied_bound(alloc, found)?)?;
    Ok(Signed::Min(first, others))
}
