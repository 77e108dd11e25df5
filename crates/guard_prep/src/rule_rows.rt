//! The prepared rows of a rule.

use poly_terms::{Poly, Row};

/// The rows of a rule, which hold if its guard holds, and its new values.
#[derive(Debug, PartialEq, Eq, Drop)]
pub struct RuleRows {
    /// How many left variables there are.
    pub left: u32,
    /// How many unknowns there are: the left variables, the free variables, and one for each nonlinear place, in order
    /// of places.
    pub unknowns: u32,
    /// The linear rows of the guard, each tightened: each is at least 0.
    pub rows: Vec<Row>,
    /// The new value of each place of the target, as a form in the unknowns.
    pub new_values: Vec<Row>,
    /// Whether the update of each place has degree 2 or more.
    pub nonlinear: Vec<bool>,
    /// The expanded polynomial of each update.
    pub polys: Vec<Poly>,
}
