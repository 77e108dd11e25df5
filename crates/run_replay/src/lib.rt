//! Run files: the start values and the steps of a run as text, with exactly one text for each run; and replaying a run.
//!
//! Builds on `text_grammar` (the parser) and `its_model` (steps in 128 bits). Main guarantee: `read_run` gives exactly
//! the run whose text the bytes are, within the limits, or exactly the first refusal. `replay` gives exactly the tally
//! along the run if its steps are steps of the program and no value exceeds 128 bits, or exactly the first bad step.
#![tactic(auto)]

mod error;
mod faults;
mod file;
mod grammar;
mod kind;
mod law;
mod reading;
mod replaying;
mod replaying_error;
mod replaying_law;
mod tally;
mod text;
mod walk;

pub use error::RunTextError;
pub use faults::{STEP_LIMIT, is_no_rule, wanted};
pub use file::RunFile;
pub use its_model::{Program, Step};
pub use kind::RunKind;
pub use law::{texts_are_of_one_run, worked_runs_hold};
pub use reading::read_run;
pub use replaying::replay;
pub use replaying_error::ReplayError;
pub use replaying_law::{replays_are_decided, worked_replays_hold};
pub use tally::Tally;
pub use walk::Walk;
