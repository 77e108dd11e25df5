//! Turns whose values change by the same amounts each time: which expressions over such values do so too, which atoms
//! keep holding, and that a turn that passes all of these tests keeps leading on without end.
//!
//! Builds on `lassos` (turns that move on) and `its_model` (rules and their expressions). Main guarantee: `step_on`
//! gives the values after a step that passes the test, or exactly the first reason why it fails; and a turn moves on if
//! each of its steps passes and the values after it change as those before it (`seen_turns_go_on`).
#![tactic(auto)]

mod affine;
mod law;
mod step;
mod stop;
mod value;
mod within;

pub use affine::Affine;
pub use its_model::{Program, Step};
pub use law::{seen_turns_go_on, worked_turns_hold};
pub use step::step_on;
pub use stop::StopError;
pub use value::affine_of;
