//! Lassos whose turns move on: their texts, and the check that a turn leads on by the same differences each time without
//! end, so that no bound on its rules holds.
//!
//! Builds on `lasso_check` (lasso files and walks along them) and `affine_turns` (values that change by the same amount
//! in each turn). Main guarantee: `read_moving` gives exactly the lasso whose text in the second form the bytes are, or
//! exactly the first refusal. `check_moving` answers exactly where the steps are a run in 128 bits and the turn is seen to
//! move on, or says exactly the first reason why not; and where it answers, each rule that it lists occurs without end.
#![tactic(auto)]

mod along;
mod between;
mod error;
mod law;
mod moving;
mod reading;

pub use error::MovingError;
pub use lasso_check::{Lasso, LassoTextError, Program, Step};
pub use law::{lassos_have_one_verdict, moving_turns_are_endless, worked_moving_hold};
pub use moving::{Moving, check_moving};
pub use reading::{is_moving_form, read_moving};
