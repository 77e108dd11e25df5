//! Ranking functions as ranking nodes store them.

use crate::proof::Proof;

/// The part of a ranking function at a symbol: a coefficient for each place, and a constant.
#[derive(Debug, PartialEq, Eq, Drop)]
pub struct Form {
    pub symbol: u32,
    pub coefs: Vec<i64>,
    pub constant: i64,
}

/// A ranking function for a rule over a set of rules: forms over one denominator, the multipliers that show how much it
/// loses by each rule of the set, and those that show its floor before the strict rule.
#[derive(Debug, PartialEq, Eq, Drop)]
#[cycle(proof)]
pub struct RankNode {
    pub rule: u32,
    pub set: Vec<u32>,
    pub den: u64,
    pub forms: Vec<Form>,
    pub moves: Vec<Vec<u64>>,
    pub floor: Vec<u64>,
    pub uses: Vec<Proof>,
}
