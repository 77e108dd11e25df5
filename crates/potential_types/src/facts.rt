//! The facts that lemmas state.

use poly_terms::Poly;
use signed_bounds::Signed;

/// A polynomial over the variables of a rule, whose positive part is counted at each step by the rule.
#[derive(Drop)]
pub struct Charge {
    /// The number of the rule, from 1 on.
    pub rule: u32,
    pub form: Poly,
}

/// A fact, which may hold on all runs.
#[derive(Drop)]
pub enum SignedFact {
    /// A bound on the sum of the charges of the steps of a run.
    Sum(Vec<Charge>, Signed),
    /// A bound on a polynomial over the variables of a rule, at each of its steps.
    Peak(u32, Poly, Signed),
    /// A bound on the absolute value at a place, from 1 on, after each step by a rule, or at the start for rule 0.
    Size(u32, u32, Signed),
}
