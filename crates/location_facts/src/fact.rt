//! Facts that hold at a symbol, and their certificates.

/// A fact of a symbol: the value at place `plus`, less the value at place `minus`, is at least `least`. Places count
/// from 1, and place 0 stands for the number 0.
#[derive(Clone, Copy, Debug, PartialEq, Eq)]
pub struct LocFact {
    /// The symbol, by its number.
    pub symbol: u32,
    /// The place whose value is added, or 0.
    pub plus: u32,
    /// The place whose value is subtracted, or 0.
    pub minus: u32,
    /// The lower bound on the difference.
    pub least: i64,
}

/// The certificate of a fact after a rule into its symbol. The rows are those of the rule, followed by those of the
/// facts at its source.
#[derive(Debug, PartialEq, Eq, Drop)]
pub enum FactProof {
    /// Multipliers of the rows that show -1: the rule can't be used.
    Empty(Vec<u64>),
    /// Multipliers of the rows that show this multiple of the fact for the new values; the factor is at least 1.
    Implied(Vec<u64>, u64),
}

/// Facts, and for each one a proof for each rule into its symbol, in the order of rules.
#[derive(Debug, PartialEq, Eq, Drop)]
pub struct LocFacts {
    /// The facts.
    pub kept: Vec<LocFact>,
    /// The proofs of each fact.
    pub proofs: Vec<Vec<FactProof>>,
}

/// The first fault of facts and their proofs: the number of a fact, from 1, and of a rule. The rule is 0 if the fact
/// itself or the shape of its proofs is wrong; both are 0 if there isn't one list of proofs for each fact.
#[derive(Clone, Copy, Debug, PartialEq, Eq)]
pub struct FactFault {
    /// The number of the fact, or 0.
    pub fact: u32,
    /// The number of the rule, or 0.
    pub rule: u32,
}
