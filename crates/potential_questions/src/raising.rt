//! By how much a polynomial has to be raised so that it isn't negative at the steps of a rule.

ghost use Rattle.std.specs.Prelude.{◌≤◌};

use crate::draft::Draft;
use crate::error::SearchError;
use crate::implication::Implication;
use crate::layout::add_poly;
use crate::system::System;
use integer_pivoting::{Answer, Solution, solve};
use poly_terms::Poly;
use std::alloc::Global;

/// The least natural number that, added to a polynomial of degree 1, makes one that the rows of a rule show to be at
/// least 0; none where no number does. `work` says how many numbers of lines pivots may
/// go through, and then how many are left.
///
/// # Errors
///
/// `Budget` where more numbers would have to be gone through; `Range` where a number is beyond 128 bits, the
/// polynomial has a greater degree, or there is no such rule; `Memory` where an allocation fails.
pub fn ask_raise(
    alloc: Global,
    system: &System,
    rule: u32,
    form: &Poly,
    work: &mut u64,
) -> Result<Option<i128>, SearchError>
    ensures spent { work.new ≤ work.old }
{
    let mut draft = Draft::new(alloc);
    let prepared = system.rule(rule).ok_or(SearchError::Range)?;
    let raise = draft.column(1, false)?;
    let mut implication = Implication::new(alloc, prepared.unknowns, 1)?;
    add_poly(&mut implication, 1, form)?;
    implication.add(raise, 1, &[])?;
    implication.write(alloc, &mut draft, prepared)?;
    match solve(alloc, &draft.finish(), work)? {
        Answer::Optimal(solution) => Ok(rounded_up(&solution, raise)),
        Answer::Infeasible | Answer::Unbounded => Ok(None),
    }
}

// The value of a column, rounded up.
fn rounded_up(solution: &Solution, column: u32) -> Option<i128> {
    let value = solution
        .numerators
        .get(column as usize)
        .copied()
        .unwrap_or(0);
    let whole = value.checked_div(solution.den)?;
    let left = value.checked_rem(solution.den)?;
    if left > 0 {
        whole.checked_add(1)
    } else {
        Some(whole)
    }
}
