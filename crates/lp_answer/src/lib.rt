//! The answer to a linear program from a file, as text.
//!
//! Builds on `lp_text` (the files) and `bland_end` (the simplex method to its end). Main guarantee: `answer_lp` gives the
//! text of the end of Bland's sequence of tableaux, or of the one reason why the end isn't reached; a linear program has
//! one such text.
#![tactic(auto)]

mod answer;
mod answering;
mod law;
mod refusal;
mod text;

pub use answer::LpAnswer;
pub use answering::answer_lp;
pub use law::{lp_answers_are_one, worked_answers_hold};
pub use lp_text::{LpTextError, WrittenLp};
pub use refusal::refusal_text;
