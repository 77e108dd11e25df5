//! The graph of a program (its symbols, with an edge from source to target for each rule) and its strongly connected
//! components.
//!
//! Builds on `its_model`, and on `run_counting` for programs without a cycle. Main guarantee: the rules that can come
//! just before a rule, the reachable symbols and the set of a rule without a time are those of the definitions by
//! paths; rules without a time that stay in one component have the same set; `components` gives the only list of
//! components in their order; `has_cycle` is true exactly if some component has an edge inside; and without a cycle
//! each rule occurs at most once in every run.
#![tactic(auto)]

mod classes;
mod cycle;
mod flood;
mod graph;
mod law;
mod links;
mod listing;
mod order;
mod pairs;
mod roots;
mod tables;

pub use cycle::has_cycle;
pub use graph::Graph;
pub use law::{
    components_are_as_worked_out, cycles_are_inner_links, listings_are_unique,
    parts_are_as_worked_out, valid_programs_have_symbols, without_cycle_each_rule_at_most_once,
};
pub use listing::components;

/// Running out of memory.
pub use model::Memory;
