//! Integer transition systems: programs, configurations and steps as Rust types.
//!
//! Builds on `poly_terms` (expressions) and `text_core` (names). Main guarantee: `program_of` reads a program as the
//! plain data of `model`, with small programs as worked values (`worked_values_hold`); `IsValid` defines the valid
//! programs; `step_checked` takes exactly the steps that stay within 128 bits, `cost_checked` gives their cost, and
//! `cost_program` builds the program that leads to the cost of a rule.
#![tactic(auto)]

mod copies;
mod cost;
mod costing;
mod guard;
mod law;
mod program;
mod run;
mod step;
mod step_error;

pub use copies::left_names;
pub use cost::{cost_checked, costs_have_no_fault};
pub use costing::{cost_program, cost_programs_state_costs};
pub use guard::{Atom, Rel};
pub use law::{
    arities_of_valid_agree, costs_are_worked_out, programs_are_worked_out, steps_are_worked_out,
    worked_values_hold,
};
pub use program::{Program, Rule, Symbol};
pub use run::{Config, Step};
pub use step::{step_checked, steps_have_no_fault};
pub use step_error::StepError;
pub use text_core::{Name, begins_name, name_len};
