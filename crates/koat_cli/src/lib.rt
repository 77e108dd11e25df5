//! The program's top call `run`, from the words of the command line to the exit status.
//!
//! Builds on all other crates of the program. Its contract is the main theorem: the text on the sink after status 0 is
//! true on every run of the program that the file spells: with `analyse` the report, with `facts` the facts and the
//! report, with `best` the facts and the bounds over the start values, with `check` what the proof states, whoever made
//! it. With `certify` the text is a proof file that is accepted for the program, with `replay` each number of the tally
//! is at most the value of the bound beside it, with `lasso` no bound holds on the use of a rule that is listed, and with
//! `while` no execution has more steps than the total says.
#![tactic(auto)]

mod analysis;
mod best;
mod executions;
mod figures;
mod fitting;
mod generated;
mod lasso_answer;
mod lasso_reader;
mod law;
mod lp_reader;
mod moving_text;
mod preparation;
mod program;
mod program_reader;
mod proof_reader;
mod proving;
mod refusal;
mod replay_text;
mod replaying;
mod run_reader;
mod run_refusal;
mod top_call;
mod while_reader;
mod while_task;

pub use call_plans::Status;
pub use command_line::{FileTask, NumberTask, PairTask, ProgramTask, Request, parse_request};
pub use law::{
    analysis_texts_state_one_report, answers_exclude_each_other, answers_have_statuses,
    calls_are_answered, lassos_leave_times_missing, what_is_proved_is_accepted,
    worked_answers_hold, worked_ends_hold, worked_executions_hold, worked_meanings_hold,
    worked_missing_files_hold, worked_replay_texts_hold,
};
pub use program::run_program;
pub use report_text::print as print_report;
pub use top_call::run;
