//! Lasso files of both forms, whose turns are meant to lead back or to move on: one type, one reader and one check.
//!
//! Builds on `lasso_check` (turns that lead back) and `moving_check` (turns that move on). Main guarantee:
//! `read_lasso_file` gives exactly the lasso whose text in either form the bytes are, with its form, or exactly the
//! first refusal. `check_lasso_file` gives exactly the turn if it leads back, or passes the test of moving on, or
//! exactly the first reason why not; and each rule of a turn that it gives occurs arbitrarily often.
#![tactic(auto)]

mod checking;
mod error;
mod file;
mod law;
mod reading;

pub use checking::check_lasso_file;
pub use error::TurnError;
pub use file::{EndlessTurn, LassoFile};
pub use lasso_check::{Lasso, LassoError, LassoTextError, Program, Step, Turn};
pub use law::{
    endless_turns_have_no_time, files_are_decided, turns_are_decided, worked_files_hold,
};
pub use moving_check::{Moving, MovingError};
pub use reading::read_lasso_file;
