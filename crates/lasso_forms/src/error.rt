//! Why the turn of a lasso file can't be repeated, or isn't shown to.

use lasso_check::LassoError;
use moving_check::MovingError;
use thiserror::Error;

/// Why the turn of a lasso file can't be repeated, or isn't shown to: its first bad step, or the reason of the check of
/// its form, if all steps are good.
#[derive(Debug, PartialEq, Eq, Drop, Error)]
pub enum TurnError {
    /// The error of a turn that is meant to lead back.
    #[error(transparent)]
    FirstForm(LassoError),
    /// The error of a turn that is meant to move on.
    #[error(transparent)]
    SecondForm(MovingError),
}
