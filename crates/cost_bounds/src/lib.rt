//! Bounds the costs of rules over the times and sizes that the rounds found: what all steps by a rule cost together, or
//! the first reason why no bound is found (`cost`).
//!
//! Builds on `cost_nodes` (the rows of a cost, and what a bound on it composes), `rank_search` and `local_size` (the
//! searches), and `size_bounds` (the table). Main guarantee: the answer is the first that applies; a node that is found
//! is accepted after the lemmas of the rounds, and states a bound that holds on all runs; and a rule has one answer
//! within a number of pivots.
#![tactic(auto)]

mod answer;
mod bounding;
mod finding;
mod laws;
mod stating;

pub use answer::CostAnswer;
pub use finding::cost;
pub use laws::{
    bounded_costs_are_accepted, bounded_costs_hold, cost_answers_are_one, cost_reasons_are_true,
    costs_are_as_worked_out,
};
