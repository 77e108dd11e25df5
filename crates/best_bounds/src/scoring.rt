//! Which of two files is better, by what they state.

ghost use Rattle.std.specs.Prelude.{◌≡◌, ◌⊎◌, ◌≤◌, map, true, false};
ghost use Rattle.claims_check.specs.Views.{stated_of};
ghost use Rattle.best_bounds.specs.Subjects.{bounds_on_steps};

use crate::comparing::{Comparison, Margin, Measure, is_linear};
use crate::found_bounds::AcceptedFile;
use crate::statements::one_if_bounds_steps;
use claims_check::Statement;
use its_model::Program;

/// Whether each rule has a statement on its time.
pub(crate) fn has_all_times(p: &Program, stated: &[Statement]) -> bool {
    let mut timed = 0usize;
    for statement in stated {
        if let Statement::Time(_, _) = statement {
            timed = timed.saturating_add(1);
        }
    }
    timed >= p.rules.len()
}

/// Whether each time that is stated is linear in the start values.
pub(crate) fn has_linear_times(stated: &[Statement]) -> bool {
    for statement in stated {
        if let Statement::Time(_, bound) = statement {
            if !is_linear(bound) {
                return false;
            }
        }
    }
    true
}

/// The better one of two files, by what they state.
pub(crate) fn better_file(
    known: AcceptedFile,
    found: AcceptedFile,
    comparison: Comparison<'_>,
) -> AcceptedFile
    ensures one { (result ≡ known) ⊎ (result ≡ found) }
    ensures as_known { bounds_on_steps (map stated_of known.stated.items)
        ≤ bounds_on_steps (map stated_of result.stated.items) }
    ensures as_found { bounds_on_steps (map stated_of found.stated.items)
        ≤ bounds_on_steps (map stated_of result.stated.items) }
{
    if is_better(&found.stated, &known.stated, comparison) {
        found
    } else {
        known
    }
}

// Whether statements are better than others: they have more bounds on times, costs and totals; or as many, and the
// total, or all times together where there is none, is less by the margin; or has the same value, where any margin does,
// and they are more.
fn is_better(stated: &[Statement], others: &[Statement], comparison: Comparison<'_>) -> bool
    ensures better { result ≡ true
        → bounds_on_steps (map stated_of others.now) ≤ bounds_on_steps (map stated_of stated.now) }
    ensures no_better { result ≡ false
        → bounds_on_steps (map stated_of stated.now) ≤ bounds_on_steps (map stated_of others.now) }
{
    let count = count_on_steps(stated);
    let other = count_on_steps(others);
    if count != other {
        return count > other;
    }
    comes_to_less(stated, others, comparison)
}

// How many statements are on times, costs and totals.
fn count_on_steps(stated: &[Statement]) -> usize
    ensures { result ≡ bounds_on_steps (map stated_of stated.now) }
{
    let mut count = 0usize;
    for statement in stated {
        count += one_if_bounds_steps(statement);
    }
    count
}

// Whether the total of statements is less than that of others, or has the same value, where they are more than the others
// and any margin does.
fn comes_to_less(stated: &[Statement], others: &[Statement], comparison: Comparison<'_>) -> bool {
    let measure = measure_of(stated, comparison);
    let other = measure_of(others, comparison);
    if comparison.margin == Margin::Any && measure.value == other.value {
        return stated.len() > others.len();
    }
    measure.replaces(other, comparison.margin)
}

// The measure of the total, or of all times together where there is no total.
fn measure_of(stated: &[Statement], comparison: Comparison<'_>) -> Measure {
    let mut times = Measure::zero();
    let mut total = None;
    for statement in stated {
        match statement {
            Statement::Time(_, bound) => times = times.plus(Measure::of_bound(bound, comparison)),
            Statement::Total(bound) => total = Some(Measure::of_bound(bound, comparison)),
            _ => (),
        }
    }
    total.unwrap_or(times)
}
