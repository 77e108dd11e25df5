//! Unbounded places, which no side bound bounds.

use farkas_cert::Scaled;

/// A ray of a rule's rows along which the new value moves up, or down, and no left argument changes, with a point of
/// the rows: so no affine form in the left arguments bounds the new value.
#[derive(Debug, PartialEq, Eq, Drop)]
pub struct UnboundedSide {
    pub up: bool,
    pub ray: Vec<i64>,
    pub kept: Scaled,
}
