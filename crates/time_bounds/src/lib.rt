//! The analysis of a program: rounds of runtime bounds and size bounds, up to a fixpoint, then bounds on the costs of
//! rules, and the total.
//!
//! Builds on `rank_search`, `local_size` and `rvg_components` (the searches), `size_bounds` and `bound_derivations`
//! (the bounds found so far), `bound_fixpoint` (the rounds as definitions) and `cost_bounds`. Main guarantee: the
//! report is read off the last derivations of the rounds; each bound holds on all runs; each missing bound has a reason
//! that is true of the program; and the total, where what each rule spends has a bound, bounds what every run costs.
//! The lemmas are those of the derivations in their order, and then those of costs, and are accepted; each known bound
//! carries the number of a lemma that states it. For a number of pivots a program has one analysis, including its
//! lemmas, its gaps and their numbers.
#![tactic(auto)]

mod analysing;
mod asking;
mod beginning;
mod candidates;
mod context;
mod copies;
mod costing;
mod law;
mod locals;
mod new_derivations;
mod parts;
mod premises;
mod reasons;
mod rounds;
mod rule_statuses;
mod sets;
mod size_reasons;
mod sizing;
mod totals;
mod tried_rules;

pub use analysing::analyse;
pub use law::{
    analyses_are_one, found_bounds_are_printable, reasons_are_as_worked_out, reasons_are_true,
    searches_are_one, searches_are_right, totals_hold,
};
pub use outcome::{CostEntry, Outcome, SizeEntry, TimeEntry};
pub use totals::total;
