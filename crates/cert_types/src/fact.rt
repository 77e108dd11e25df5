//! Facts.

use bound_expr::Bound;

/// A bound on how often a rule occurs, on the absolute value at a place after a rule, or on what all steps by a rule
/// cost together. Rule 0 is the virtual entry; places count from 1.
#[derive(Debug, PartialEq, Eq, Drop)]
pub enum Fact {
    Time { rule: u32, bound: Bound },
    Size { rule: u32, place: u32, bound: Bound },
    Cost { rule: u32, bound: Bound },
}
