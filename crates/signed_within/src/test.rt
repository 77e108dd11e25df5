//! The tests by which a factor takes another one.

/// The test by which a factor may take another one.
#[derive(Clone, Copy, Debug, PartialEq, Eq)]
pub(crate) enum Test {
    /// It takes an equal one.
    Equal,
    /// It takes an equal one if there is one, else one that it fits.
    Fitting,
}
