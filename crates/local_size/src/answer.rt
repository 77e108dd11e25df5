//! Answers for a place.

use cert_types::{LimitHit, LocalBound};
use outcome::UnboundedSide;

/// A bound on the new value at a place in terms of the values before, or why there is none.
#[derive(Debug, PartialEq, Eq, Drop)]
pub enum LocalAnswer {
    /// The new value has a side bound on each side.
    Bound(LocalBound),
    /// A side is unbounded: no form in the left arguments bounds it.
    UnboundedSide(UnboundedSide),
    /// A linear program exceeded a limit.
    OutOfLimits(LimitHit),
}
