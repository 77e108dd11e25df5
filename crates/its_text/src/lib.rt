//! How programs are written: the tokens of their texts, their syntax trees, the programs of `model` that these denote,
//! the states of parsing, and the faults of a text.
//!
//! Builds on `expr_text`. Main guarantee: a text spells at most one program (`one_program`), and reading its tokens in
//! order gives exactly its sections or its first fault (`texts_have_one_answer`), which is the only first one
//! (`texts_have_one_first_fault`). The verdict on bytes gives the program by numbers (`verdicts_are_right`): a text is
//! read as a program exactly if it spells that program within the limits (`verdicts_are_spelled`), and the program is
//! then valid (`spelled_programs_are_valid`). Small texts have the worked verdicts (`worked_values_hold`, and at the
//! limits `worked_limits_hold`).
#![tactic(auto)]

mod law;

pub use law::{
    one_program, spelled_programs_are_valid, texts_have_one_answer, texts_have_one_first_fault,
    verdicts_are_right, verdicts_are_spelled, worked_limits_hold, worked_values_hold,
};
