//! Potentials as tables.

use crate::summand::Summand;
use poly_terms::Poly;

/// The function of a symbol, a polynomial over its places.
#[derive(Drop)]
pub struct SymbolFunction {
    /// The number of the symbol, from 0 on.
    pub symbol: u32,
    pub form: Poly,
}

/// The effect of a rule to a symbol with a function on the potential.
#[derive(Drop)]
pub struct Move {
    /// The number of the rule, from 1 on.
    pub rule: u32,
    /// Whether the rule keeps the function of its source, up to the gain, or resets the function to at most the gain.
    pub keeps: bool,
    /// The greatest gain, over the rule's variables.
    pub gain: Poly,
    /// The number of the fact that bounds the gain, from 1 on, if one is cited.
    pub cited: Option<u32>,
    pub certificate: Vec<Summand>,
}

/// A potential: functions by ascending symbols, their common denominator, and moves by ascending rules.
#[derive(Drop)]
pub struct PotentialTable {
    pub functions: Vec<SymbolFunction>,
    pub den: u64,
    pub moves: Vec<Move>,
}
