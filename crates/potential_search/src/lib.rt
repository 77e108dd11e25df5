//! Looks for lemmas about potentials that bound how often the rules of a program occur and how long its runs are. What
//! it finds is judged elsewhere.
//!
//! Builds on `potential_questions` (linear programs for potentials), `potential_types` (lemmas), `simpler_bounds` and
//! `signed_within` (bounds). Main guarantee: `search_lemmas` returns, and each lemma that it gives cites earlier ones
//! alone; what it says of each rule and of the total are numbers of these lemmas. No contract says that a bound is
//! found.
#![tactic(auto)]

mod costs;
mod facts;
mod falls;
mod findings;
mod known;
mod lemmas;
mod peaks;
mod phases;
mod plans;
mod pruning;
mod raising;
mod rounds;
mod search;
mod shape;
mod sizes;
mod switching;
mod times;
mod totals;
mod unanswered;
mod variants;

pub use findings::Findings;
pub use potential_questions::SearchError;
pub use rounds::search_lemmas;
