//! Facts at symbols.

use poly_terms::Poly;

/// A fact at a symbol of a program: whenever a run is there, the form over its places is at least a number.
#[derive(Debug, PartialEq, Eq, Drop)]
pub struct SymbolFact {
    /// The number of the symbol.
    pub symbol: usize,
    /// A sum of multiples of places, which are numbered from 0.
    pub form: Poly,
    /// The number.
    pub least: i128,
}
