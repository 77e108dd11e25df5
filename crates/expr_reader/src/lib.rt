//! Parses expressions and guards piece by piece, without recursion, for a reader of a larger text.
//!
//! Builds on `expr_text`, which defines the written texts, and on `poly_terms` and `its_model`, whose expressions and
//! atoms it builds. Main guarantee: the state of parsing always represents the written state of `expr_text`, so the
//! result is the term of the pieces that were read.
#![tactic(auto)]

mod expansion;
mod expression;
mod guard;
mod law;
mod making;
mod piece;
mod signs;
mod variables;

pub use expansion::{Unexpanded, expansion_fault};
pub use expression::Expression;
pub use guard::{GuardReader, GuardState};
pub use law::worked_values_hold;
pub use model::Memory;
pub use piece::{Joint, Piece, Sign};
pub use variables::Variables;
