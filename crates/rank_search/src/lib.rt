//! Searches for ranking functions by linear programming: whether the rows of a rule have a rational point, and which
//! affine function of least weight ranks a rule over a set of rules.
//!
//! Builds on `simplex_core` (which solves the linear programs) and `rule_questions` (which sets them up). Main
//! guarantee: each answer is given exactly in its case. `rule_questions` defines the meaning of an answer on
//! feasibility, `linear_forms` which linear programs are solved, `rule_forms` what their answers prove, and
//! `simplex_core` which limits they can exceed.
#![tactic(auto)]

mod answer;
mod blocks;
mod coefficients;
mod emptiness;
mod found;
mod gap;
mod goals;
mod laws;
mod problem;
mod ranking;
mod shut;
mod symbols;

pub use answer::RankAnswer;
pub use emptiness::guard_feasibility;
pub use laws::{
    found_gaps_hold, rank_answers_are_exact, rank_answers_are_one, ranked_nodes_are_accepted,
    ranked_nodes_rank,
};
pub use ranking::find_rank;
