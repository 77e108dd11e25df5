//! Lassos of a program: a run that reaches a configuration, and a turn from there back to it; their texts, and the
//! check that the turn leads back, so that no runtime bound of its rules holds.
//!
//! Builds on `text_grammar` (the parser), `run_replay` (texts of runs and walks along them) and `lassos` (what a lasso
//! means). Main guarantee: `read_lasso` gives exactly the lasso whose text the bytes are, within the limits, or exactly
//! the first refusal. `check_lasso` answers exactly where the steps are a run in 128 bits and the turn leads back, or
//! says exactly which step is the first bad one or at which place the turn stays open; and each rule that it lists occurs
//! without end.
#![tactic(auto)]

mod checking;
mod checking_error;
mod checking_law;
mod closing;
mod file;
mod grammar;
mod law;
mod reading;
mod text;
mod turning;

pub use checking::{Turn, check_lasso};
pub use checking_error::LassoError;
pub use checking_law::{lassos_have_one_verdict, listed_rules_are_endless, worked_checks_hold};
pub use closing::rules_used;
pub use file::Lasso;
pub use its_model::{Program, Step};
pub use law::{texts_are_of_one_lasso, worked_lassos_hold};
pub use reading::read_lasso;
pub use run_replay::RunTextError as LassoTextError;
pub use turning::{Turning, walk_stem, walk_turn};
