//! Parses the command line: what the words after the program's name request.
//!
//! Builds on `text_core`. Main guarantee: `parse_request` returns the request of the words exactly if they are a
//! command line, and none exactly if they aren't.
#![tactic(auto)]

mod command;
mod kind;
mod law;
mod line;
mod number;
mod operands;
mod request;
mod task;
mod usage_lines;

pub use law::{command_lines_are_as_worked_out, commands_are_listed, words_are_read_in_one_way};
pub use operands::DEFAULT_PIVOTS;
pub use request::{Request, parse_request};
pub use task::{FileTask, NumberTask, PairTask, ProgramTask};
pub use usage_lines::usage;
