//! Affine forms over numbered unknowns, the rational points and rays of systems of linear inequalities ("rows"),
//! certificates by Farkas' lemma, linear programs, and the questions about rows that linear programs decide.
//!
//! Definitions are in `specs/`; the crate builds only on `int_laws`. Main guarantee: a certificate proves what it
//! claims (`certificates_hold`), and solutions and duals of a question's linear program answer the question. The
//! functions here have no code: the contract of each is a law. The only code is that of the limits on numbers, as
//! constants, and one error type for all limits.
#![tactic(auto)]

mod certificates;
mod limit_cause;
mod limits;
mod programs;
mod questions;

pub use certificates::{certificates_are_as_worked_out, certificates_hold};
pub use limit_cause::LimitCause;
pub use limits::{CERTIFICATE_LIMIT, POINT_LIMIT, limits_are_as_defined};
pub use programs::{agreeing_programs_are_the_same, scales_carry};
pub use questions::{
    duals_refute, least_weighs_least, prices_bound_weights, questions_have_these_programs,
    refuted_has_none, rule_questions_are_shaped, solutions_solve,
};
