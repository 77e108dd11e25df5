//! Expressions in reverse Polish notation, for tests and measuring: each operator follows its operands.
//!
//! Builds on `poly_terms`. Nothing is claimed of the expression that is read.
#![tactic(auto)]

mod postfix;

pub use postfix::expression;
