//! The parts of a file.

/// A part of a file: its bytes, and the position of the first of them in the file, from 0.
#[derive(Clone, Copy, Debug, PartialEq, Eq)]
pub struct Part<'b> {
    pub text: &'b [u8],
    pub at: usize,
}

/// The parts of a proof file of the third form, in order. Each may be empty.
#[derive(Clone, Copy, Debug, PartialEq, Eq)]
pub struct Parts<'b> {
    /// The lines that begin with `copy` or `from`.
    pub section: Part<'b>,
    /// The lines up to the first one that begins with `end`, and with it: a file of the first or second form.
    pub plain: Part<'b>,
    /// The lines that begin with `signed`.
    pub signed: Part<'b>,
    /// All that is behind.
    pub claims: Part<'b>,
}
