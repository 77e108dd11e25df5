//! The bounds on subjects that an analysis gives.

ghost use Rattle.std.specs.Prelude.{◌≡◌, map, option_map};
ghost use Rattle.bound_expr.specs.Views.{bound_of};
ghost use Rattle.outcome.specs.Views.{size_of, report_of};
ghost use Rattle.outcome.specs.Holding.{numbered_entry, place_entry};
ghost use Rattle.best_report.specs.Reports.{time_bound, cost_bound, size_bound, analysis_bound};

use crate::subject::Subject;
use bound_expr::Bound;
use outcome::{CostEntry, Outcome, SizeEntry, TimeEntry};

/// The bound of an analysis on a subject, where it has one.
pub(crate) fn analysis_bound<'a>(outcome: &'a Outcome, subject: Subject) -> Option<&'a Bound>
    ensures { option_map (λ b. bound_of b.now) result ≡ analysis_bound (report_of outcome.now) subject }
{
    match subject {
        Subject::Time(rule) => time_at(outcome, rule),
        Subject::Cost(rule) => cost_at(outcome, rule),
        Subject::Total => outcome.total.as_ref(),
        Subject::Above(rule, place) => size_at(outcome, rule, place),
        Subject::Below(rule, place) => size_at(outcome, rule, place),
    }
}

/// The entry with a number from 1 on, if there is one.
pub(crate) fn entry_at<'a, T>(entries: &'a [T], number: u64) -> Option<&'a T>
    ensures { option_map (λ e. e.now) result ≡ numbered_entry entries.now number }
{
    if number == 0 {
        return None;
    }
    entries.get((number - 1) as usize)
}

// The time of a rule.
fn time_at<'a>(outcome: &'a Outcome, rule: u64) -> Option<&'a Bound>
    ensures { option_map (λ b. bound_of b.now) result
        ≡ time_bound (numbered_entry (report_of outcome.now).times rule) }
{
    match entry_at(&outcome.times, rule) {
        Some(TimeEntry::Known(stored)) => Some(&stored.bound),
        _ => None,
    }
}

// The bound on the cost of a rule.
fn cost_at<'a>(outcome: &'a Outcome, rule: u64) -> Option<&'a Bound>
    ensures { option_map (λ b. bound_of b.now) result
        ≡ cost_bound (numbered_entry (report_of outcome.now).costs rule) }
{
    match entry_at(&outcome.costs, rule) {
        Some(Some(CostEntry::Known(stored))) => Some(&stored.bound),
        _ => None,
    }
}

// The size of a place after a rule.
fn size_at<'a>(outcome: &'a Outcome, rule: u64, place: u64) -> Option<&'a Bound>
    ensures { option_map (λ b. bound_of b.now) result
        ≡ size_bound (place_entry (numbered_entry (report_of outcome.now).sizes rule) place) }
{
    match entry_at(&outcome.sizes, rule) {
        Some(places) => size_in(places, place),
        None => None,
    }
}

// The size of a place by the entries of the places.
fn size_in<'a>(places: &'a [SizeEntry], place: u64) -> Option<&'a Bound>
    ensures { option_map (λ b. bound_of b.now) result
        ≡ size_bound (numbered_entry (map size_of places.now) place) }
{
    match entry_at(places, place) {
        Some(SizeEntry::Known(stored)) => Some(&stored.bound),
        _ => None,
    }
}
