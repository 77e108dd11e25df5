//! The limits that a linear program can hit.

/// The limit that a linear program hits.
#[derive(Clone, Copy, Debug, PartialEq, Eq, Hash)]
pub enum LimitCause {
    /// After this many pivots a number of the tableau is too large.
    Range { pivot: u32 },
    /// This many pivots are allowed, and another one is needed.
    Budget { pivots: u32 },
    /// The tableau would have this many entries.
    Wide { entries: u64 },
    /// A number of the scaled answer is too large.
    Scale,
}
