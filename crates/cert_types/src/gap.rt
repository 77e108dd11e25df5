//! Gaps, which certify that no ranking function exists: scaled points that balance.

use farkas_cert::Scaled;

/// Scaled points which show that no affine function ranks a rule over a set of rules on all rational points of their
/// rows. A point whose denominator is 0 is a ray.
#[derive(Debug, PartialEq, Eq, Drop)]
pub struct Gap {
    /// The strict rule.
    pub rule: u32,
    /// The set of rules, ascending.
    pub set: Vec<u32>,
    /// The places at which the function may not read: symbol, and place from 1.
    pub shut: Vec<(u32, u32)>,
    /// A point of the rows of each rule of the set.
    pub moves: Vec<Scaled>,
    /// A second point of the strict rule.
    pub floor: Scaled,
    /// A further point of each rule of the set, whose denominator is at least 1.
    pub kept: Vec<Scaled>,
}
