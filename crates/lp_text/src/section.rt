//! The section of a linear program's text that is being read.

/// The section that is being read.
#[derive(Clone, Copy, Debug, PartialEq, Eq)]
pub enum Section {
    /// The lines before the first costs.
    Head,
    /// The first costs, or the word after them.
    First,
    /// The second costs.
    Second,
    /// Rows up to their `=`, or the last line.
    Rows,
    /// A right side.
    Right,
}
