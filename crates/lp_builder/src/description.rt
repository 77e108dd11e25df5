//! The parts of a question as the builder takes them.

use poly_terms::Row;

/// The goal form of a parameter in a group; parameters that aren't listed have the goal form 0.
#[derive(Debug, Drop)]
pub struct Goal {
    /// The parameter, from 0.
    pub parameter: u32,
    /// Its form in the unknowns of the group.
    pub form: Row,
}

/// The cost of a parameter.
#[derive(Clone, Copy, Debug)]
pub struct Cost {
    /// Weighs its absolute value, by the first costs.
    pub size: u32,
    /// Weighs its positive part, by the second costs.
    pub height: u32,
}
