//! Local bounds: bounds on a new value in terms of the values before.

/// A rule, and a place of its target, from 1.
#[derive(Clone, Copy, Debug, PartialEq, Eq, Hash)]
pub struct ResultVariable {
    pub rule: u32,
    pub place: u32,
}

/// One side of a local bound.
#[derive(Debug, PartialEq, Eq, Drop)]
pub enum SideBound {
    /// An affine form in the left arguments over a denominator, with the multipliers of the rule's rows that show it.
    Linear {
        den: u64,
        coefs: Vec<i64>,
        constant: i64,
        multipliers: Vec<u64>,
    },
    /// The update's own polynomial with absolute coefficients.
    Poly,
}

/// Both sides: the up side bound is never below the new value, the low one never below its negation.
#[derive(Debug, PartialEq, Eq, Drop)]
pub struct LocalBound {
    pub up: SideBound,
    pub low: SideBound,
}

/// A result variable with its local bound.
#[derive(Debug, PartialEq, Eq, Drop)]
pub struct Member {
    pub result_variable: ResultVariable,
    pub local: LocalBound,
}
