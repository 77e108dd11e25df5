//! Lasso files of both forms, and turns that can be repeated, as types.

use lasso_check::{Lasso, Turn};
use moving_check::Moving;

/// A lasso with the form of its file, which says what its turn is meant to do.
#[derive(Debug, PartialEq, Eq, Drop)]
pub enum LassoFile {
    /// The turn is meant to lead back to where it begins.
    FirstForm(Lasso),
    /// The turn is meant to move on by the same differences each time.
    SecondForm(Lasso),
}

/// A turn that can be repeated without end.
#[derive(Debug, PartialEq, Eq, Drop)]
pub enum EndlessTurn {
    /// It leads back.
    Back(Turn),
    /// It moves on.
    On(Moving),
}
