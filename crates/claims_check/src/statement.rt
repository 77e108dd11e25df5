//! What claims state.

use poly_terms::Expr;
use signed_bounds::Signed;

/// What an accepted claim states of all runs. Rules and places are numbered from 1 on, symbols from 0 on.
#[derive(Drop)]
pub enum Statement {
    /// A bound on how often a rule occurs.
    Time(u32, Signed),
    /// A bound on what the steps of a rule cost together.
    Cost(u32, Signed),
    /// A bound on what all steps cost together.
    Total(Signed),
    /// A bound on the value at a place after a rule.
    Above(u32, u32, Signed),
    /// A bound on the opposite of that value.
    Below(u32, u32, Signed),
    /// An expression over the places of a symbol that is at least 0 there.
    AtSymbol(u32, Expr),
}
