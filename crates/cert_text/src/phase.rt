//! The meanings of the next piece in a proof file.

/// The meaning of the next piece.
#[derive(Clone, Copy, Debug, PartialEq, Eq)]
pub enum Next {
    /// Nothing besides the piece itself.
    Nothing,
    /// The beginning of a node.
    Node,
    /// An earlier lemma.
    Lemma,
    /// A rule.
    Rule,
    /// A place of the target of the last rule.
    Place,
    /// A number.
    Number,
    /// A symbol.
    Symbol,
}
