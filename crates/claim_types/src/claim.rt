//! What is claimed of a program, with the numbers of the facts that are cited.

use poly_terms::Expr;
use signed_bounds::Signed;

/// The facts that bound a sum of charges, by their numbers, from 1 on.
#[derive(Drop)]
pub enum Support {
    /// One fact on all charges together, with its bound.
    ByOne(u32),
    /// One fact for each charge, or 0 for a rule that never occurs, and a bound on what they come to together.
    ByEach(Vec<u32>, Signed),
}

/// A claim. Rules and places are numbered from 1 on, symbols from 0 on.
#[derive(Drop)]
pub enum Claim {
    /// How often a rule occurs.
    OnTime(u32, Support),
    /// What the steps of a rule cost together.
    OnCost(u32, Support),
    /// What all steps cost together.
    OnTotal(Support),
    /// The value at a place after a rule, by one fact for each copy of the rule, or 0 for a copy that never occurs; and
    /// the bound.
    OnAbove(u32, u32, Vec<u32>, Signed),
    /// The opposite of that value, likewise.
    OnBelow(u32, u32, Vec<u32>, Signed),
    /// An expression over the places of a symbol is at least 0 there.
    OnSymbol(u32, Expr),
}
