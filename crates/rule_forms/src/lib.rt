//! Local bounds and ranking functions as definitions: which affine forms in the left arguments bound a new value of a
//! rule, in which order they are tried, which has least weight, and which rays exclude them all; which functions rank a
//! rule of a set, which has least weight, and when none exists.
//!
//! Builds on `linear_forms`. Main guarantee: a solution of the question's linear program is such a form or function, of
//! least weight if the cost is least, and a dual shows that none exists (`solutions_rank`, `least_ranks_weigh_least`,
//! `duals_exclude_ranks`). The functions here have no code: the contract of each is a law.
#![tactic(auto)]

mod bounding;
mod ranking;

pub use bounding::{
    duals_are_rays, duals_exclude, least_are_least, local_forms_are_as_worked_out,
    solutions_are_bounds,
};
pub use ranking::{
    duals_exclude_ranks, least_ranks_weigh_least, ranking_is_as_worked_out, solutions_rank,
};
