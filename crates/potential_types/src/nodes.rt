//! The nodes of lemmas.

use crate::facts::Charge;
use crate::summand::Summand;
use crate::tables::{PotentialTable, SymbolFunction};
use poly_terms::Poly;
use signed_bounds::Signed;

/// The amount that a potential pays at the steps of a rule.
#[derive(Drop)]
pub struct Payment {
    /// The number of the rule, from 1 on.
    pub rule: u32,
    /// The amount, over the rule's variables.
    pub amount: Poly,
    /// The certificate that the function before the step is at least the amount, times the denominator.
    pub floor: Vec<Summand>,
    /// The certificate that the amount isn't negative.
    pub positive: Vec<Summand>,
}

/// A potential, and the amounts that it pays, by ascending rules.
#[derive(Drop)]
pub struct FallNode {
    pub potential: PotentialTable,
    pub payments: Vec<Payment>,
}

/// A potential that covers a polynomial at the steps of a rule.
#[derive(Drop)]
pub struct PeakNode {
    pub potential: PotentialTable,
    pub rule: u32,
    pub form: Poly,
    /// The certificate that the function before the step is at least the polynomial, times the denominator.
    pub floor: Vec<Summand>,
}

/// A polynomial that is at most a number at the steps of a rule.
#[derive(Drop)]
pub struct RowNode {
    pub rule: u32,
    pub form: Poly,
    pub number: u64,
    pub certificate: Vec<Summand>,
}

/// A fact that is composed of others, each cited by its number.
#[derive(Drop)]
pub enum Combination {
    /// The sum of a polynomial over a rule's steps: how often the rule occurs, times the peak of the polynomial.
    Times {
        rule: u32,
        form: Poly,
        time: u32,
        peak: u32,
    },
    /// The lesser of two bounds on one sum or one peak.
    Least(u32, u32),
    /// Two sums together.
    Add(u32, u32),
    /// Charges that are among those of a sum.
    Among(Vec<Charge>, u32),
}

/// A polynomial over the places of a rule's source, bounded by their sizes after the rules before it.
#[derive(Drop)]
pub struct SizedNode {
    pub rule: u32,
    pub form: Poly,
    /// The numbers of the facts that state the sizes.
    pub cited: Vec<u32>,
}

/// A move of a rule, with the certificates for both functions of two phases.
#[derive(Drop)]
pub struct PhaseMove {
    pub rule: u32,
    pub first: Vec<Summand>,
    pub second: Vec<Summand>,
}

/// A rule that two phases count, with the certificate that the second function is at least the denominator before it.
#[derive(Drop)]
pub struct CountedRule {
    pub rule: u32,
    pub floor: Vec<Summand>,
}

/// Two phases: each counted step lowers the first function, and raises the second one by at most the first.
#[derive(Drop)]
pub struct PhasesNode {
    pub firsts: Vec<SymbolFunction>,
    pub seconds: Vec<SymbolFunction>,
    pub den: u64,
    pub moves: Vec<PhaseMove>,
    pub counted: Vec<CountedRule>,
}

/// The kinds of nodes.
#[derive(Drop)]
pub enum SignedNode {
    Fall(FallNode),
    Peak(PeakNode),
    Row(RowNode),
    Combined(Combination),
    Sized(SizedNode),
    InPhases(PhasesNode),
}

/// A node, and the bound that it states.
#[derive(Drop)]
pub struct SignedLemma {
    pub node: SignedNode,
    pub bound: Signed,
}
