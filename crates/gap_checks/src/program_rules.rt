//! The rules of a program, each with its prepared rows.

use guard_prep::RuleRows;
use its_model::Program;

/// A program, with the prepared rows of each of its rules, in order.
#[derive(Clone, Copy)]
pub(crate) struct Rules<'a> {
    pub(crate) program: &'a Program,
    pub(crate) prepared_rules: &'a [RuleRows],
}
