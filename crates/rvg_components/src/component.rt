//! A component of the result-variable graph.

use cert_types::ResultVariable;

/// A component of the result-variable graph: places between each two of which values flow both ways, or a single place.
#[derive(Debug, PartialEq, Eq, Drop)]
pub struct Component {
    /// The places, ordered by rule and then by place.
    pub members: Vec<ResultVariable>,
    /// Whether a value flows from some member into some member.
    pub looping: bool,
}
