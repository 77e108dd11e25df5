//! The answers to a while program, as text.
//!
//! Builds on `while_text` (the reader) and `while_front` (translations). Main guarantee: a text spells at most one
//! while program and has at most one first fault, and not both (`while_texts_are_decided`); `points_text` and
//! `refusal_text` give the positions of a program's statements and a fault as text; the executions of a program within
//! the limits end with the same values as the runs of its translation, and have at most as many steps as a bound on the
//! total cost of these runs (`executions_follow_runs`).
#![tactic(auto)]

mod law;
mod points;
mod refusal;

pub use law::{executions_follow_runs, while_texts_are_decided, worked_answers_hold};
pub use points::points_text;
pub use refusal::refusal_text;
pub use while_front::translate;
pub use while_text::{WhileError, Whole, read_while};
