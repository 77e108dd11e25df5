//! A program as certificates are checked against it: the rows of its rules, the rewriting of bounds in force and the
//! order `below`, for derivations; and its rules as affine forms, for gaps.
//!
//! Builds on `guard_prep` (rows), `bound_table` (rewriting) and `cert_rules` (when nodes and gaps are accepted). Main
//! guarantee: the setting of every valid program is true of it, so the facts of accepted lemmas hold on all of its
//! runs, and gaps that hold exclude ranking functions on rational points (`accepted_files_hold`).
#![tactic(auto)]

mod laws;

pub use laws::{
    accepted_facts_are_printable, accepted_facts_hold, accepted_files_hold,
    forms_are_those_of_settings, gaps_are_as_worked_out, gaps_exclude_functions,
    polynomials_are_nonlinear, settings_are_as_worked_out, settings_are_faithful,
    small_bounds_are_rewritten,
};
