//! Bounds: expressions over the absolute values of the start arguments, built from constants, sums, products, maxima
//! and powers. There is no subtraction, so the value grows with each argument.
//!
//! Builds on `model`. Main guarantee: contracts read a bound as the plain expression `bound_of b`, whose value at m is
//! `val (bound_of b) m`; substitution, capped values and measures agree with it.
#![tactic(auto)]

mod bound;
mod capped;
mod growth;
mod limits;
mod measured;
mod substituted;
mod worked;

pub use bound::Bound;
pub use capped::{capped_add, capped_multiply, capped_power};
pub use growth::bounds_grow_with_inputs;
pub use limits::{CAP, CONSTANT_LIMIT, DEPTH_LIMIT, NODE_LIMIT, limits_are_as_defined};
pub use measured::nodes_in_all;
pub use model::Memory;
pub use substituted::apply;
pub use worked::bounds_are_as_worked_out;
