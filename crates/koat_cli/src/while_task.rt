//! What commands do with a while program.

/// What a command does with a while program.
#[derive(Clone, Copy)]
pub(crate) enum WhileTask {
    /// `while`: the report of its translation, with this many pivots for each linear program, and what this says of its
    /// executions.
    Executions(u32),
    /// `translate`: its translation.
    Translate,
}
